//! A job is run: its words are those of the command, over the files that they give, under a list of moves.
ghost use Rattle.std.specs.Prelude.{◌≡◌, All, IsUtf8, map, string_bytes, IfOk, IsErrOf, OnOk};
ghost use Rattle.q_c_library.specs.Calls.{RanOver};
ghost use Rattle.q_c_library.specs.Jobs.{HoldsGiven, texts_of};

use crate::job::{Job, NoJob, Word, job_of};
use crate::running::{Left, command_listed};
use q_guides::Listed;
use std::alloc::Global;

// What a job left, and its words.
#[derive(Drop)]
pub(crate) struct Finished {
    pub words: Vec<String>,
    pub left: Left,
}

pub(crate) fn run_job(alloc: Global, words: &[Word], listed: Listed) -> Result<Finished, NoJob>
    ensures words { IfOk result (λ done.
        map (λ w. string_bytes w) done.words.items ≡ texts_of words.now) }
    ensures ran { IfOk result (λ done. RanOver (texts_of words.now) (λ disk.
        HoldsGiven words.now disk) done.left.status done.left.files done.left.line) }
    ensures texts { OnOk result (All IsUtf8 (texts_of words.now)) }
    ensures no_text { IsErrOf result NoJob.NoText → ¬ All IsUtf8 (texts_of words.now) }
{
    let Job {
        words: texts,
        files,
    } = match job_of(alloc, words) {
        Ok(job) => job,
        Err(error) => return Err(error),
    };
    match command_listed(alloc, &texts, files, listed) {
        Ok(left) => Ok(Finished { words: texts, left }),
        Err(_) => Err(NoJob::NoMemory),
    }
}
