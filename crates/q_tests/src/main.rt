//! Tests as rows of data: each row of the tables that the words name is played over files in memory, and one line says
//! how it went. The tables are read from the disk and the lines are put into standard output by the devices of the
//! product.
#![tactic(auto)]

ghost use Rattle.std.specs.Prelude.{◌≤◌};

mod alarm;
mod checking;
mod desk;
mod formulas;
mod guides;
mod implying;
mod logging;
mod notation;
mod places;
mod reading;
mod row_targets;
mod stage;
mod table;
mod taking;
mod trickle;
mod trouble;

use q_io::{DeviceError, DiskFiles, Files, LAST_PLACE, Sink, StdSink};
use std::process::ExitCode;
use std::{env, io};
use table::{Row, rows_of};
use trouble::Trouble;

/// How many rows there were, and how many of them do not pass.
#[derive(Clone, Copy)]
struct Tally {
    rows: u32,
    wrong: u32,
}

// The words after the program's name: the tables.
fn words<R: std::rt::Env + AllocGlobal>(rt: &R) -> io::Result<Vec<String>> {
    let mut words = Vec::new(rt.alloc());
    for word in env::args(rt)?.skip(1) {
        words.push(word)?;
    }
    Ok(words)
}

// The whole of a file.
fn whole<F: Files>(
    alloc: std::alloc::Global,
    files: &mut F,
    name: &str,
) -> Result<Vec<u8>, DeviceError> {
    let mut text = Vec::new(alloc);
    let mut piece = [0u8; 4096];
    for _ in 0..100_000u32 {
        let at = text.len() as u64;
        if at > LAST_PLACE {
            return Err(DeviceError::Failed);
        }
        let count = files.read(name, at, &mut piece)?;
        if count == 0 {
            break;
        }
        text.extend_from_slice(&piece[..count])?;
    }
    Ok(text)
}

fn play_table<S: Sink>(
    alloc: std::alloc::Global,
    table: &[u8],
    out: &mut S,
    mut tally: Tally,
) -> Result<Tally, Trouble> {
    let Ok(table) = str::from_utf8(table) else {
        return Err(Trouble::Unreadable("a table that is text"));
    };
    let rows = rows_of(alloc, table)?;
    for row in &rows {
        tally.rows = tally.rows.saturating_add(1);
        if !play_row(alloc, row, out)? {
            tally.wrong = tally.wrong.saturating_add(1);
        }
    }
    Ok(tally)
}

// Whether the row passes.
fn play_row<S: Sink>(alloc: std::alloc::Global, row: &Row, out: &mut S) -> Result<bool, Trouble> {
    let (passes, said) = row.play(alloc)?;
    out.put(said.as_bytes())?;
    Ok(passes)
}

fn play_file<F: Files, S: Sink>(
    alloc: std::alloc::Global,
    name: &str,
    files: &mut F,
    out: &mut S,
    tally: Tally,
) -> Result<Tally, Trouble> {
    let table = whole(alloc, files, name)?;
    play_table(alloc, &table, out, tally)
}

// Whether the disk gives what was written to it.
fn keeps<F: Files>(
    alloc: std::alloc::Global,
    files: &mut F,
    name: &str,
) -> Result<bool, DeviceError> {
    files.create(name)?;
    files.append(name, b"abc")?;
    files.append(name, b"def")?;
    let held = whole(alloc, files, name)?;
    Ok(held.as_slice() == b"abcdef".as_slice())
}

// Plays all tables, and puts a last line.
fn play_all<F: Files, S: Sink>(
    alloc: std::alloc::Global,
    names: &[String],
    files: &mut F,
    out: &mut S,
) -> Result<Tally, Trouble> {
    let mut tally = Tally { rows: 0, wrong: 0 };
    for name in names {
        tally = play_file(alloc, name.as_str(), files, out, tally)?;
    }
    if !keeps(alloc, files, "appended.txt")? {
        tally.wrong = tally.wrong.saturating_add(1);
    }
    put_tally(alloc, out, tally)?;
    Ok(tally)
}

fn put_tally<S: Sink>(alloc: std::alloc::Global, out: &mut S, tally: Tally) -> Result<(), Trouble> {
    let said = format!(in alloc; "{} rows, {} wrong\n", tally.rows, tally.wrong)?;
    Ok(out.put(said.as_bytes())?)
}

// The devices stand here alone, so that each is let go once.
fn play_on_disk(rt: &HostRuntime, names: &[String]) -> Result<Tally, Trouble> {
    let mut files = DiskFiles::new(rt);
    let mut out = StdSink::new(rt);
    play_all(rt.alloc(), names, &mut files, &mut out)
}

fn played(rt: &HostRuntime) -> Result<Tally, Trouble> {
    match words(rt) {
        Ok(names) => play_on_disk(rt, &names),
        Err(_) => Err(Trouble::Unreadable("names of tables")),
    }
}

fn main(rt: HostRuntime) -> ExitCode {
    match played(&rt) {
        Ok(tally) if tally.wrong == 0 => ExitCode::SUCCESS,
        _ => ExitCode::FAILURE,
    }
}
