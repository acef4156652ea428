//! A job: the words of a command, and the files that they bring.
ghost use Rattle.std.specs.Prelude.{◌≡◌, ◌++◌, ◌∷◌, [], All, IsUtf8, List, ℕ, Some, cond, map, string_bytes, IfOk, IsErrOf, OnOk};
ghost use Rattle.std.specs.FinMap as store;
ghost use Rattle.q_c_library.specs.Jobs.{HoldsGiven, gives, texts_of};

use crate::running::{no_files, push_word};
use q_io::SteadyFiles;
use q_logic::NoMemory;
use std::alloc::Global;

/// A word of a command line. One that names a file may give the file's bytes.
#[repr(C)]
#[derive(Clone, Copy)]
pub struct Word<'a> {
    pub text: &'a [u8],
    pub file: &'a [u8],
    pub is_given: bool,
}

// Why a job is not done: a word is no text, or memory is wanting.
#[derive(Clone, Copy)]
pub(crate) enum NoJob {
    NoText,
    NoMemory,
}

impl From<NoMemory> for NoJob {
    ghost use Rattle.q_c_library.specs.declared.job.NoJob.TheVariants as no_job;

    ghost from_gives = { λ _ e. e ≡ no_job.NoMemory };

    fn from(_: NoMemory) -> NoJob {
        NoJob::NoMemory
    }
}

// The words of a command, and the files over which it is run.
#[derive(Drop)]
pub(crate) struct Job {
    pub words: Vec<String>,
    pub files: SteadyFiles,
}

// The files, and the one that the word of this text gives.
fn put_given(files: &mut SteadyFiles, word: &Word, text: &str) -> Result<(), NoMemory>
    requires { text.now ≡ word.now.text.now }
    ensures { OnOk result ((name : List ℕ) → store.get files.new name
        ≡ cond (gives name word.now) (Some word.now.file.now) (store.get files.old name)) }
{
    if word.is_given {
        files.put_file(text, word.file)?;
    }
    Ok(())
}

impl Job {
    // One more word.
    fn add(&mut self, alloc: Global, word: &Word) -> Result<(), NoJob>
        ensures words { OnOk result (map (λ w. string_bytes w) self.new.words.items ≡ map (λ w.
            string_bytes w) self.old.words.items ++ word.now.text.now ∷ []) }
        ensures files { OnOk result ((name : List ℕ) → store.get self.new.files name
            ≡ cond (gives name word.now) (Some word.now.file.now) (store.get self.old.files name)) }
        ensures text { OnOk result (IsUtf8 word.now.text.now) }
        ensures no_text { IsErrOf result NoJob.NoText → ¬ IsUtf8 word.now.text.now }
    {
        match str::from_utf8(word.text) {
            Ok(text) => {
                push_word(&mut self.words, alloc, text)?;
                put_given(&mut self.files, word, text)?;
                Ok(())
            }
            Err(_) => Err(NoJob::NoText),
        }
    }
}

// The job of these words.
pub(crate) fn job_of(alloc: Global, words: &[Word]) -> Result<Job, NoJob>
    ensures words { IfOk result (λ job.
        map (λ w. string_bytes w) job.words.items ≡ texts_of words.now) }
    ensures files { IfOk result (λ job. HoldsGiven words.now job.files) }
    ensures texts { OnOk result (All IsUtf8 (texts_of words.now)) }
    ensures no_text { IsErrOf result NoJob.NoText → ¬ All IsUtf8 (texts_of words.now) }
{
    let mut job = Job {
        words: Vec::new(alloc),
        files: no_files(alloc),
    };
    for word in words {
        match job.add(alloc, word) {
            Ok(()) => {}
            Err(error) => return Err(error),
        }
    }
    Ok(job)
}
