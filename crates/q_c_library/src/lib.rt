//! Celdrinn for programs in C: any command by its words, and `simplify`, `check` and `rebuild`, over bytes in memory. Each call is
//! one run of the program over files in memory, and its answer is the program's exit status. packaging/celdrinn.h declares the calls.
#![tactic(auto)]

mod copying;
mod job;
mod job_run;
mod made;
mod running;

ghost use Rattle.std.specs.Prelude.{◌≡◌, ◌∷◌, [], codes, length, replicate};
ghost use Rattle.q_io.specs.Files.{bytes_at};
ghost use Rattle.q_c_library.specs.Calls.{Called, Copied, HoldsFour, HoldsOne, HoldsThree, no_lengths, over_three};
ghost use Rattle.q_c_library.specs.Jobs.{JobCalled, JobTold, ListedCalled, NothingTold};

use copying::{put, put_file};
use job::NoJob;
pub use job::Word;
use job_run::run_job;
use made::{put_made, tell_lengths};
use q_app::Status;
use q_guides::{Listed, NoMoves};
use running::{Left, check, rebuild, simplify};
use std::alloc::Global;

/// How many bytes each result has, also where its buffer was too short for it. What a call does not make has 0.
#[repr(C)]
#[derive(Clone, Copy)]
pub struct Lengths {
    pub output: usize,
    pub log: usize,
    pub line: usize,
}

const NOTHING: Lengths = Lengths {
    output: 0,
    log: 0,
    line: 0,
};

/// Whether LOG leads from IN to OUT, as `celdrinn check IN OUT LOG` answers it. Its line goes into the buffer.
#[unsafe(no_mangle)]
pub extern "C" fn celdrinn_check(
    alloc: Global,
    input: &[u8],
    output: &[u8],
    log: &[u8],
    line: &mut [u8],
    lengths: &mut Lengths,
) -> u8
    ensures { Called (over_three (codes "check") []) (λ disk.
        HoldsThree disk input.now output.now log.now) result (λ disk text.
        Copied text line.old line.new lengths.new.line × (lengths.new.output ≡ 0)
        × (lengths.new.log ≡ 0)) ((lengths.new ≡ no_lengths) × (line.new ≡ line.old)) }
{
    *lengths = NOTHING;
    match check(alloc, input, output, log) {
        Ok(left) => {
            lengths.line = put(left.line.bytes(), line);
            left.status.code()
        }
        Err(_) => Status::NoMemory.code(),
    }
}

/// Simplifies IN, as `celdrinn simplify IN OUT LOG` does; OUT, LOG and its line go into the buffers.
#[unsafe(no_mangle)]
pub extern "C" fn celdrinn_simplify(
    alloc: Global,
    input: &[u8],
    output: &mut [u8],
    log: &mut [u8],
    line: &mut [u8],
    lengths: &mut Lengths,
) -> u8
    ensures { Called (over_three (codes "simplify") []) (λ disk. HoldsOne input.now disk) result
        (λ disk text. Copied text line.old line.new lengths.new.line
        × Copied (bytes_at disk (codes "OUT")) output.old output.new lengths.new.output
        × Copied (bytes_at disk (codes "LOG")) log.old log.new lengths.new.log)
        ((lengths.new ≡ no_lengths) × (output.new ≡ output.old) × (log.new ≡ log.old)
        × (line.new ≡ line.old)) }
{
    *lengths = NOTHING;
    match simplify(alloc, input) {
        Ok(left) => {
            lengths.output = put_file(&left.files, "OUT", output);
            lengths.log = put_file(&left.files, "LOG", log);
            lengths.line = put(left.line.bytes(), line);
            left.status.code()
        }
        Err(_) => Status::NoMemory.code(),
    }
}

/// Carries circuits of OUT back to circuits of IN, as `celdrinn rebuild IN OUT LOG SKOLEM CERT` does; CERT and its line go into
/// the buffers, and the length of CERT is that of `output`.
#[unsafe(no_mangle)]
pub extern "C" fn celdrinn_rebuild(
    alloc: Global,
    input: &[u8],
    output: &[u8],
    log: &[u8],
    skolem: &[u8],
    cert: &mut [u8],
    line: &mut [u8],
    lengths: &mut Lengths,
) -> u8
    ensures { Called (over_three (codes "rebuild") (codes "SKOLEM" ∷ codes "CERT" ∷ []))
        (λ disk. HoldsFour disk input.now output.now log.now skolem.now) result
        (λ disk text. Copied text line.old line.new lengths.new.line
        × Copied (bytes_at disk (codes "CERT")) cert.old cert.new lengths.new.output
        × (lengths.new.log ≡ 0)) ((lengths.new ≡ no_lengths) × (cert.new ≡ cert.old)
        × (line.new ≡ line.old)) }
{
    *lengths = NOTHING;
    match rebuild(alloc, input, output, log, skolem) {
        Ok(left) => {
            lengths.output = put_file(&left.files, "CERT", cert);
            lengths.line = put(left.line.bytes(), line);
            left.status.code()
        }
        Err(_) => Status::NoMemory.code(),
    }
}

/// Does what the words ask, as the program does with them, over the files that words give; the files of all other names do not
/// exist. `lengths` says of each word how many bytes the file has that it names, and 0 where that was given or was not made; the
/// bytes of all these files go to `made`, one behind the other, where they fit. It answers 64 with nothing made also where a word
/// is no text, or there is not a length for each word.
#[unsafe(no_mangle)]
pub extern "C" fn celdrinn_run(
    alloc: Global,
    words: &[Word],
    lengths: &mut [usize],
    made: &mut [u8],
    line: &mut [u8],
    line_length: &mut usize,
) -> u8
    ensures { JobCalled words.now lengths.old result (JobTold words.now line.old line.new line_length.new made.old
        made.new lengths.new)
        (NothingTold line.old line.new line_length.new made.old made.new lengths.old
        lengths.new) }
{
    let mut wrong_line = 0;
    celdrinn_run_listed(
        alloc,
        words,
        &[],
        lengths,
        made,
        line,
        line_length,
        &mut wrong_line,
    )
}

/// The same under a list of moves, a line for each: `simplify` tries them first, in their order, and passes over what does not
/// apply. It answers 64 with nothing made also where a line is no move; `wrong_line` is then the number of the first such line,
/// counted from 1, and else 0.
#[unsafe(no_mangle)]
pub extern "C" fn celdrinn_run_listed(
    alloc: Global,
    words: &[Word],
    moves: &[u8],
    lengths: &mut [usize],
    made: &mut [u8],
    line: &mut [u8],
    line_length: &mut usize,
    wrong_line: &mut usize,
) -> u8
    ensures { ListedCalled moves.now wrong_line.new result
        (JobCalled words.now lengths.old result (JobTold words.now line.old line.new line_length.new made.old
        made.new lengths.new)
        (NothingTold line.old line.new line_length.new made.old made.new lengths.old
        lengths.new))
        (NothingTold line.old line.new line_length.new made.old made.new lengths.old
        lengths.new) }
{
    *wrong_line = 0;
    match Listed::read(alloc, moves) {
        Ok(listed) => call_job(alloc, words, listed, lengths, made, line, line_length),
        Err(NoMoves::Line(number)) => {
            tell_nothing(lengths, line_length);
            *wrong_line = number;
            Status::Usage.code()
        }
        Err(NoMoves::NoMemory) => {
            tell_nothing(lengths, line_length);
            Status::NoMemory.code()
        }
    }
}

fn tell_nothing(lengths: &mut [usize], line_length: &mut usize)
    ensures lengths { lengths.new ≡ replicate (length lengths.old) 0 }
    ensures line_length { line_length.new ≡ 0 }
{
    lengths.fill(0);
    *line_length = 0;
}

// A job under a list of moves. What it made is told, where it was done.
fn call_job(
    alloc: Global,
    words: &[Word],
    listed: Listed,
    lengths: &mut [usize],
    made: &mut [u8],
    line: &mut [u8],
    line_length: &mut usize,
) -> u8
    ensures { JobCalled words.now lengths.old result (JobTold words.now line.old line.new line_length.new made.old
        made.new lengths.new)
        (NothingTold line.old line.new line_length.new made.old made.new lengths.old
        lengths.new) }
{
    tell_nothing(lengths, line_length);
    if lengths.len() != words.len() {
        return Status::Usage.code();
    }
    match run_job(alloc, words, listed) {
        Ok(done) => {
            tell_lengths(words, &done.left.files, &done.words, lengths);
            put_made(words, &done.left.files, &done.words, made);
            *line_length = put(done.left.line.bytes(), line);
            done.left.status.code()
        }
        Err(NoJob::NoText) => Status::Usage.code(),
        Err(NoJob::NoMemory) => Status::NoMemory.code(),
    }
}
