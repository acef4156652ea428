// Files by name, and commands over them.
use crate::alarm::RowAlarm;
use crate::guides::guide_of;
use crate::notation::compare;
use crate::trickle::Trickle;
use crate::trouble::Trouble;
use q_app::{Status, run};
use q_guides::Unextended;
use q_io::{Call, Fault, Files, MemFiles, MemSink, Sink, SteadyFiles, SteadySink};
use q_sched::Guide;
use std::alloc::Global;

/// What a command ended with, and what it put.
#[derive(Drop)]
pub struct Said {
    pub status: Status,
    pub line: Vec<u8>,
}

/// The same files on three devices: memory with planned faults, memory that never fails, and files that give one byte at a
/// time. Where a fault is planned, the first one alone serves.
#[derive(Drop)]
pub struct Desk {
    alloc: Global,
    memory: MemFiles,
    steady: SteadyFiles,
    trickle: Trickle,
    failing_puts: Vec<u64>,
    is_alone: bool,
    guides: Vec<String>,
    // where it is asked for this time, an alarm rings
    turn: Option<u64>,
    // that of the last command over memory
    alarm: RowAlarm,
}

impl Desk {
    pub(crate) fn new(alloc: Global) -> Desk {
        Desk {
            alloc,
            memory: MemFiles::new(alloc),
            steady: SteadyFiles::new(alloc),
            trickle: Trickle {
                files: MemFiles::new(alloc),
            },
            failing_puts: Vec::new(alloc),
            is_alone: false,
            guides: Vec::new(alloc),
            turn: None,
            alarm: RowAlarm::new(None),
        }
    }

    pub(crate) fn put(&mut self, name: &str, bytes: &[u8]) -> Result<(), Trouble> {
        self.memory.put_file(name, bytes)?;
        self.steady.put_file(name, bytes)?;
        self.trickle.files.put_file(name, bytes)?;
        Ok(())
    }

    pub(crate) fn file(&self, name: &str) -> Option<&[u8]> {
        self.memory.file(name)
    }

    /// No device but the first serves from now on.
    pub(crate) fn stand_alone(&mut self) {
        self.is_alone = true;
    }

    pub(crate) fn plan(&mut self, call: Call, nth: u64, part: usize) -> Result<(), Trouble> {
        self.is_alone = true;
        self.memory.fail_at(Fault { call, nth, part })?;
        Ok(())
    }

    pub(crate) fn plan_put(&mut self, nth: u64) -> Result<(), Trouble> {
        self.is_alone = true;
        self.failing_puts.push(nth)?;
        Ok(())
    }

    /// From now on commands are handed so many more such guides.
    pub(crate) fn guide(&mut self, count: u32, guide: &str) -> Result<(), Trouble> {
        for _ in 0..count {
            self.guides.push(String::from_str(self.alloc, guide)?)?;
        }
        Ok(())
    }

    /// From now on the alarm of each command rings where it is asked for this time.
    pub(crate) fn ring(&mut self, turn: u64) {
        self.turn = Some(turn);
    }

    /// What the alarm of the last command over memory says.
    pub(crate) fn alarm(&self) -> Result<String, Trouble> {
        self.alarm.text(self.alloc)
    }

    /// Runs a command on each device that serves; all say the same.
    pub(crate) fn run(&mut self, words: &[String]) -> Result<Said, Trouble> {
        let said = self.run_in_memory(words)?;
        if !self.is_alone {
            self.run_again(words, &said)?;
        }
        Ok(said)
    }

    fn run_in_memory(&mut self, words: &[String]) -> Result<Said, Trouble> {
        let mut out = MemSink::new(self.alloc);
        let status = self.run_into(words, &mut out)?;
        let line = Vec::from_slice(self.alloc, out.bytes())?;
        Ok(Said { status, line })
    }

    fn run_into(&mut self, words: &[String], out: &mut MemSink) -> Result<Status, Trouble> {
        for nth in &self.failing_puts {
            out.fail_at(*nth)?;
        }
        self.alarm = RowAlarm::new(self.turn);
        guided(
            self.alloc,
            words,
            &self.guides,
            &mut self.memory,
            out,
            &mut self.alarm,
        )
    }

    fn run_again(&mut self, words: &[String], said: &Said) -> Result<(), Trouble> {
        let (alloc, turn) = (self.alloc, self.turn);
        says_over(alloc, words, &self.guides, &mut self.steady, turn, said)?;
        says_over(alloc, words, &self.guides, &mut self.trickle, turn, said)
    }

    /// Each device that serves holds the same under a name.
    pub(crate) fn agree(&self, name: &str) -> Result<(), Trouble> {
        if self.is_alone {
            return Ok(());
        }
        let held = self.memory.file(name);
        if self.steady.file(name) != held || self.trickle.files.file(name) != held {
            return Err(Trouble::Unreadable("devices that hold the same"));
        }
        Ok(())
    }
}

// Runs a command over other files, where it says the same.
fn says_over<F: Files>(
    alloc: Global,
    words: &[String],
    guides: &[String],
    files: &mut F,
    turn: Option<u64>,
    said: &Said,
) -> Result<(), Trouble> {
    let mut out = SteadySink::new(alloc);
    let mut alarm = RowAlarm::new(turn);
    let status = guided(alloc, words, guides, files, &mut out, &mut alarm)?;
    compare(alloc, &said.line, out.bytes())?;
    compare(alloc, &[said.status.code()], &[status.code()])
}

// Runs a command with guides that are made for it: `GUIDE`, or `unextended GUIDE`.
fn guided<F: Files, S: Sink>(
    alloc: Global,
    words: &[String],
    guides: &[String],
    files: &mut F,
    out: &mut S,
    alarm: &mut RowAlarm,
) -> Result<Status, Trouble> {
    let mut boxes: Vec<Box<dyn Guide>> = Vec::new(alloc);
    for guide in guides {
        let (text, is_unextended) = parts_of(guide.as_str());
        let made = guide_of(alloc, text)?;
        let boxed: Box<dyn Guide> = if is_unextended {
            Box::new(alloc, Unextended::new(made))?
        } else {
            Box::new(alloc, made)?
        };
        boxes.push(boxed)?;
    }
    Ok(run(alloc, words, files, out, boxes, alarm))
}

fn parts_of(guide: &str) -> (&str, bool) {
    match guide.strip_prefix("unextended ") {
        Some(rest) => (rest, true),
        None => (guide, false),
    }
}
