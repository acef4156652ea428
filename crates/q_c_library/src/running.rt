//! One command over files in memory.
ghost use Rattle.std.specs.Prelude.{◌≡◌, ◌++◌, ◌∷◌, [], List, ℕ, None, map, string_bytes, codes, IfOk, OnOk};
ghost use Rattle.std.specs.FinMap as store;
ghost use Rattle.q_app.specs.Commands.{request};
ghost use Rattle.q_app.specs.Says.{Does};
ghost use Rattle.q_c_library.specs.Calls.{Ran, RanOver, HoldsFour, HoldsOne, HoldsThree, memory, over_three};

use q_app::{Status, bounds_of, run_whole};
use q_guides::{Impatient, Listed, Quiet, Touched};
use q_io::{SteadyFiles, SteadySink};
use q_logic::NoMemory;
use q_sched::{FewestFirst, Guide, ShortestFirst};
use std::alloc::Global;

// What a command left: its status, the files and its line.
#[derive(Drop)]
pub(crate) struct Left {
    pub status: Status,
    pub files: SteadyFiles,
    pub line: SteadySink,
}

pub(crate) fn push_word(words: &mut Vec<String>, alloc: Global, word: &str) -> Result<(), NoMemory>
    ensures { OnOk result (map (λ w. string_bytes w) words.new.items ≡ map (λ w.
        string_bytes w) words.old.items ++ word.now ∷ []) }
{
    words.push(String::from_str(alloc, word)?)?;
    Ok(())
}

// The words of a command over IN, OUT and LOG.
fn words_of(alloc: Global, verb: &str) -> Result<Vec<String>, NoMemory>
    ensures { IfOk result (λ words.
        map (λ w. string_bytes w) words.items ≡ over_three verb.now []) }
{
    let mut words = Vec::new(alloc);
    push_word(&mut words, alloc, verb)?;
    push_word(&mut words, alloc, "IN")?;
    push_word(&mut words, alloc, "OUT")?;
    push_word(&mut words, alloc, "LOG")?;
    Ok(words)
}

// No files.
pub(crate) fn no_files(alloc: Global) -> SteadyFiles
    ensures { (name : List ℕ) → store.get result name ≡ None }
{
    let files = SteadyFiles::new(alloc);
    files
}

// A file of these bytes.
fn one_file(alloc: Global, input: &[u8]) -> Result<SteadyFiles, NoMemory>
    ensures { IfOk result (λ disk. HoldsOne input.now disk) }
{
    let mut files = no_files(alloc);
    files.put_file("IN", input)?;
    Ok(files)
}

// Files of which three hold these bytes.
fn three_files(
    alloc: Global,
    input: &[u8],
    output: &[u8],
    log: &[u8],
) -> Result<SteadyFiles, NoMemory>
    ensures { IfOk result (λ disk. HoldsThree disk input.now output.now log.now) }
{
    let mut files = one_file(alloc, input)?;
    files.put_file("OUT", output)?;
    files.put_file("LOG", log)?;
    Ok(files)
}

// The files of `rebuild`.
fn four_files(
    alloc: Global,
    input: &[u8],
    output: &[u8],
    log: &[u8],
    skolem: &[u8],
) -> Result<SteadyFiles, NoMemory>
    ensures { IfOk result (λ disk. HoldsFour disk input.now output.now log.now skolem.now) }
{
    let mut files = three_files(alloc, input, output, log)?;
    files.put_file("SKOLEM", skolem)?;
    Ok(files)
}

// The words of `rebuild`.
fn rebuild_words(alloc: Global) -> Result<Vec<String>, NoMemory>
    ensures { IfOk result (λ words. map (λ w. string_bytes w) words.items
        ≡ over_three (codes "rebuild") (codes "SKOLEM" ∷ codes "CERT" ∷ [])) }
{
    let mut words = words_of(alloc, "rebuild")?;
    push_word(&mut words, alloc, "SKOLEM")?;
    push_word(&mut words, alloc, "CERT")?;
    Ok(words)
}

// Runs it over files and a sink. A list of moves is asked first, and then the guides of the program.
fn run_guided(
    alloc: Global,
    words: &[String],
    listed: Listed,
    files: &mut SteadyFiles,
    line: &mut SteadySink,
) -> Result<Status, NoMemory>
    ensures { IfOk result (λ status. Does (request (map (λ w. string_bytes w) words.now))
        (memory files.old line.old) status (memory files.new line.new)) }
{
    let mut guides: Vec<Box<dyn Guide>> = Vec::new(alloc);
    guides.push(Box::new(alloc, listed)?)?;
    let touched = Touched::new(alloc, bounds_of(words), Quiet);
    guides.push(Box::new(alloc, touched)?)?;
    let fewest = Impatient::new(FewestFirst::new());
    guides.push(Box::new(alloc, fewest)?)?;
    let shortest = Impatient::new(ShortestFirst::new());
    guides.push(Box::new(alloc, shortest)?)?;
    Ok(run_whole(alloc, words, files, line, guides))
}

// Runs it under a list of moves.
pub(crate) fn command_listed(
    alloc: Global,
    words: &[String],
    files: SteadyFiles,
    listed: Listed,
) -> Result<Left, NoMemory>
    ensures { IfOk result (λ left.
        Ran (map (λ w. string_bytes w) words.now) files left.status left.files left.line) }
{
    let mut files = files;
    let mut line = SteadySink::new(alloc);
    let status = run_guided(alloc, words, listed, &mut files, &mut line)?;
    Ok(Left {
        status,
        files,
        line,
    })
}

// Runs it with no moves listed.
fn command(alloc: Global, words: &[String], files: SteadyFiles) -> Result<Left, NoMemory>
    ensures { IfOk result (λ left.
        Ran (map (λ w. string_bytes w) words.now) files left.status left.files left.line) }
{
    match Listed::read(alloc, &[]) {
        Ok(listed) => command_listed(alloc, words, files, listed),
        Err(_) => Err(NoMemory),
    }
}

pub(crate) fn check(
    alloc: Global,
    input: &[u8],
    output: &[u8],
    log: &[u8],
) -> Result<Left, NoMemory>
    ensures { IfOk result (λ left. RanOver (over_three (codes "check") [])
        (λ disk. HoldsThree disk input.now output.now log.now) left.status left.files left.line) }
{
    let files = three_files(alloc, input, output, log)?;
    let words = words_of(alloc, "check")?;
    command(alloc, &words, files)
}

pub(crate) fn simplify(alloc: Global, input: &[u8]) -> Result<Left, NoMemory>
    ensures { IfOk result (λ left. RanOver (over_three (codes "simplify") [])
        (λ disk. HoldsOne input.now disk) left.status left.files left.line) }
{
    let files = one_file(alloc, input)?;
    let words = words_of(alloc, "simplify")?;
    command(alloc, &words, files)
}

pub(crate) fn rebuild(
    alloc: Global,
    input: &[u8],
    output: &[u8],
    log: &[u8],
    skolem: &[u8],
) -> Result<Left, NoMemory>
    ensures { IfOk result (λ left.
        RanOver (over_three (codes "rebuild") (codes "SKOLEM" ∷ codes "CERT" ∷ [])) (λ disk.
        HoldsFour disk input.now output.now log.now skolem.now) left.status left.files left.line) }
{
    let files = four_files(alloc, input, output, log, skolem)?;
    let words = rebuild_words(alloc)?;
    command(alloc, &words, files)
}
