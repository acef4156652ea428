//! The program: the words of the command line, the real disk and standard output.
#![tactic(auto)]

ghost use Rattle.std.specs.Prelude.{◌≡◌, drop, IfOk, OnErr};
ghost use Rattle.std.specs.Process.{exit_status};
ghost use Rattle.q_command.specs.Statuses.{code_of};
ghost use Rattle.q_app.specs.Commands.{is_plain as spec_is_plain, request, seconds_of};
ghost use Rattle.q_app.specs.Operands.{texts};
ghost use Rattle.q_app.specs.Stopping.{AlarmKeeps, KeepsUntil};
ghost use Rattle.q_command.specs.Devices.{devices};
ghost use Rattle.q_sched.specs.AlarmViews.{view_alarm};
ghost use Rattle.q_main.specs.Exits.{Exits};

mod bell;
mod board;
mod deadline;
mod explained;
mod progress;
mod ringing;
mod sizes;
mod stopping;
mod teller;
mod watched;
mod wiped;

use board::Board;
use progress::Progress;
use q_app::{Status, bounds_of, is_plain, run};
use q_guides::{Impatient, Touched, Unextended};
use q_io::{DiskFiles, Files, Sink, StdSink};
use q_logic::{Bounds, NoMemory};
use q_sched::{FewestFirst, Guide, ShortestFirst};
use q_simplify::Alarm;
use ringing::Ringing;
use std::alloc::Global;
use std::fs::File;
use std::process::ExitCode;
use std::rc::Rc;
use std::{env, io};
use stopping::Stopping;
use teller::Teller;
use watched::Watched;
use wiped::Wiped;

// What is opened gets the least free number. Where standard input, output or error is closed, a file of a command would get that
// number, and lines meant for people would go into it. So these three are opened before anything else, each time the root
// folder, which can't be written. What is put into one of them then fails, and that is a write fault.
type Held = Option<<HostRuntime as std::rt::Files>::File>;

fn hold_number(rt: &HostRuntime) -> Held {
    File::open(rt, "/").ok()
}

// The program's name, and the words after it.
fn arguments<R: std::rt::Env + AllocGlobal>(rt: &R) -> io::Result<Vec<String>> {
    let mut arguments = Vec::new(rt.alloc());
    for argument in env::args(rt)? {
        arguments.push(argument)?;
    }
    Ok(arguments)
}

// The words after the program's name.
fn words(arguments: &[String]) -> &[String]
    ensures { result.now ≡ drop 1 arguments.now }
{
    if arguments.is_empty() {
        arguments
    } else {
        &arguments[1..]
    }
}

// The command; the empty word where there is none.
fn command_of(arguments: &[String]) -> &str {
    match words(arguments).first() {
        Some(word) => word.as_str(),
        None => "",
    }
}

// A word that is no text makes no command.
fn without_words(error: io::Error) -> Status {
    if error.kind() == io::ErrorKind::OutOfMemory {
        Status::NoMemory
    } else {
        Status::Usage
    }
}

// One share of the board for each guide, and one for what the first tells of itself.
type Shares = (Rc<Board>, Rc<Board>, Rc<Board>, Teller);

fn shares_of(board: &Rc<Board>, stopping: &Rc<Stopping>) -> Result<Shares, NoMemory> {
    let first = board.clone()?;
    let second = board.clone()?;
    let third = board.clone()?;
    let told = board.clone()?;
    let heeded = stopping.clone()?;
    Ok((first, second, third, Teller::new(told, heeded)))
}

fn alarm_of(stopping: &Rc<Stopping>) -> Result<Ringing, NoMemory> {
    let heeded = stopping.clone()?;
    Ok(Ringing::new(heeded))
}

// The bounds of the first guide. Where an expansion copies variables, its universal leaves by extended reductions, so a plain run
// has no such expansion.
fn guiding_bounds(words: &[String]) -> Bounds {
    let bounds = bounds_of(words);
    if is_plain(words) {
        Bounds {
            grow: bounds.grow,
            expand: 0,
        }
    } else {
        bounds
    }
}

// Runs a command under an alarm. Three guides are asked which target is tried next: first the one that looks where something
// changed, which finds nearly all of them, in a plain run without extended universal reduction; and then the two plain ones, each
// until a few of its proposals in a row were refused. They are made here, where they are handed on, since a function that makes a
// boxed guide and answers with it proves less than it seems to.
fn run_guided<F: Files, S: Sink, A: Alarm>(
    alloc: Global,
    words: &[String],
    files: &mut F,
    out: &mut S,
    shares: Shares,
    alarm: &mut A,
) -> Result<Status, NoMemory>
    ensures keeps { IfOk result (λ given.
        KeepsUntil (view_alarm A.Alarm alarm.old) (view_alarm A.Alarm alarm.new)
        (request (texts words.now)) (devices F.Files S.Sink files.old out.old) given
        (devices F.Files S.Sink files.new out.new)) }
    ensures alarm { IfOk result (λ given. AlarmKeeps (request (texts words.now))
        (seconds_of (texts words.now)) (spec_is_plain (texts words.now)) given
        (view_alarm A.Alarm alarm.old) (view_alarm A.Alarm alarm.new)) }
    ensures nothing { OnErr result (devices F.Files S.Sink files.new out.new
        ≡ devices F.Files S.Sink files.old out.old) }
    ensures silent { OnErr result
        (view_alarm A.Alarm alarm.new ≡ view_alarm A.Alarm alarm.old) }
{
    let (first, second, third, teller) = shares;
    let touched = Touched::new(alloc, guiding_bounds(words), teller);
    let mut guides: Vec<Box<dyn Guide>> = Vec::new(alloc);
    if is_plain(words) {
        let unextended = Unextended::new(touched);
        guides.push(Box::new(alloc, Progress::new(unextended, first, false))?)?;
    } else {
        guides.push(Box::new(alloc, Progress::new(touched, first, false))?)?;
    }
    let fewest = Impatient::new(FewestFirst::new());
    guides.push(Box::new(alloc, Progress::new(fewest, second, false))?)?;
    let shortest = Impatient::new(ShortestFirst::new());
    // behind it all rules are searched, but not in a plain run
    let is_last = !is_plain(words);
    guides.push(Box::new(alloc, Progress::new(shortest, third, is_last))?)?;
    Ok(run(alloc, words, files, out, guides, alarm))
}

fn exit_of(status: Status) -> ExitCode
    ensures { exit_status result ≡ code_of status }
{
    ExitCode::from(status.code())
}

// Does what the arguments ask for, over any files and any sink. The exit status is that of what was done.
fn exit_over<F: Files, S: Sink, A: Alarm>(
    alloc: Global,
    arguments: &[String],
    files: &mut F,
    out: &mut S,
    shares: Shares,
    alarm: &mut A,
) -> ExitCode
    ensures { Exits (texts arguments.now) (view_alarm A.Alarm alarm.old)
        (view_alarm A.Alarm alarm.new) (devices F.Files S.Sink files.old out.old)
        (exit_status result) (devices F.Files S.Sink files.new out.new) }
{
    match run_guided(alloc, words(arguments), files, out, shares, alarm) {
        Ok(status) => exit_of(status),
        Err(NoMemory) => exit_of(Status::NoMemory),
    }
}

// Does it over the real disk and standard output.
fn exit_on_disk(rt: &HostRuntime, arguments: &[String]) -> Result<ExitCode, NoMemory> {
    let stopping = Rc::new(rt.alloc(), Stopping::new(*rt))?;
    let board = Rc::new(rt.alloc(), Board::new(*rt))?;
    let shares = shares_of(&board, &stopping)?;
    let mut alarm = alarm_of(&stopping)?;
    let mut files = Watched::new(DiskFiles::new(rt), &board);
    let wiped = Wiped::new(rt, &board);
    let mut out = StdSink::new(&wiped);
    let exit = exit_over(
        rt.alloc(),
        arguments,
        &mut files,
        &mut out,
        shares,
        &mut alarm,
    );
    board.finish();
    wiped.explain(command_of(arguments));
    Ok(exit)
}

fn main(rt: HostRuntime) -> ExitCode {
    let _input = hold_number(&rt);
    let _output = hold_number(&rt);
    let _error = hold_number(&rt);
    match arguments(&rt) {
        Ok(arguments) => match exit_on_disk(&rt, &arguments) {
            Ok(exit) => exit,
            Err(NoMemory) => exit_of(Status::NoMemory),
        },
        Err(error) => exit_of(without_words(error)),
    }
}
