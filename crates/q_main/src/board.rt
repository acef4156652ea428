//! What a run has done so far. A long run says it on standard error, about once a second.

use crate::sizes::{Count, Sizes, sizes_of};
use q_guides::Pass;
use q_kernel::Kernel;
use q_sched::{Move, RULE_NAMES, RULES};
use std::cell::{Cell, RefCell};
use std::env;
use std::io::{IsTerminal, Write};
use std::time::Instant;

// The formula in the middle of a run.
#[derive(Clone, Copy)]
struct Stage {
    clauses: usize,
    variables: usize,
    // bytes of the log that are not in its file yet
    pending: usize,
}

fn stage_of(kernel: &Kernel) -> Stage {
    Stage {
        clauses: kernel.clauses(),
        variables: kernel.prefix().len(),
        pending: kernel.log().len(),
    }
}

/// The counts of a run, shared by those who do the work.
#[derive(Drop)]
pub(crate) struct Board {
    rt: HostRuntime,
    // None where nothing is said
    start: Option<Instant>,
    // a short run too says how often each rule was taken
    is_wanted: bool,
    // each line stands in the place of the one before
    is_terminal: bool,
    // the second of the last line, 0 before the first
    last_second: Cell<u64>,
    // bytes of the file that was made last
    written: Cell<u64>,
    stage: Cell<Option<Stage>>,
    // what is looked for, and how many looks come before the next one at the clock
    pass: Cell<Option<Pass>>,
    rest: Cell<u32>,
    // the formula as the first guide met it
    before: Cell<Option<Sizes>>,
    // the formula that was written last, and the file that is being written
    after: Cell<Option<Sizes>>,
    count: Cell<Count>,
    taken: RefCell<[u64; RULES]>,
}

// A longer name would not leave a line its place.
const LONGEST_NAME: usize = 40;

// The clock is looked at after so many looks that it is told of.
const LOOKS: u32 = 4;

// What a pass does.
fn word_of(pass: Option<Pass>) -> &'static str {
    match pass {
        None => "",
        Some(Pass::Note) => ", noting",
        Some(Pass::Subsume) => ", subsuming",
        Some(Pass::Merge) => ", merging",
        Some(Pass::Eliminate) => ", eliminating",
        Some(Pass::Block) => ", blocking",
        Some(Pass::Expand) => ", expanding",
        Some(Pass::Cover) => ", covering",
        Some(Pass::Cut) => ", reducing",
    }
}

// What the environment says: Some(false) where nothing is to be said, Some(true) where it is wanted.
fn wish(rt: &HostRuntime) -> Option<bool> {
    let Ok(word) = env::var(rt, "CELDRINN_PROGRESS") else {
        return None;
    };
    match word.as_str() {
        "0" => Some(false),
        "1" => Some(true),
        _ => None,
    }
}

impl Board {
    pub(crate) fn new(rt: HostRuntime) -> Board {
        let mut stderr = rt.stderr();
        let is_terminal = stderr.is_terminal();
        // where it is closed, a file that is opened later may get its number
        let is_open = stderr.write(b"").is_ok();
        let wish = wish(&rt);
        let start = if is_open && wish.unwrap_or(is_terminal) {
            Instant::now(&rt).ok()
        } else {
            None
        };
        Board {
            rt,
            start,
            is_wanted: wish == Some(true),
            is_terminal,
            last_second: Cell::new(0),
            written: Cell::new(0),
            stage: Cell::new(None),
            pass: Cell::new(None),
            rest: Cell::new(0),
            before: Cell::new(None),
            after: Cell::new(None),
            count: Cell::new(Count::new()),
            taken: RefCell::new([0; RULES]),
        }
    }

    /// Whether anything is said.
    pub(crate) fn is_on(&self) -> bool {
        self.start.is_some()
    }

    // The seconds since the start.
    fn second(&self) -> Option<u64> {
        let start = self.start?;
        match start.elapsed(&self.rt) {
            Ok(passed) => Some(passed.as_secs()),
            Err(_) => None,
        }
    }

    // The second of the line that is due, where one is.
    fn due(&self) -> Option<u64> {
        let second = self.second()?;
        if second <= self.last_second.get() {
            return None;
        }
        self.last_second.set(second);
        Some(second)
    }

    // What stands before and behind a line.
    fn edges(&self) -> (&'static str, &'static str) {
        if self.is_terminal {
            ("\r", "\x1b[K")
        } else {
            ("", "\n")
        }
    }

    /// A file was read up to this place.
    pub(crate) fn note_read(&self, name: &str, place: u64) {
        let Some(second) = self.due() else {
            return;
        };
        let (front, end) = self.edges();
        let kilobytes = place / 1000;
        let short = if name.len() <= LONGEST_NAME {
            name
        } else {
            "a file"
        };
        let _ = eprint!(self.rt; "{front}{second} s: reading {short}, {kilobytes} kB{end}");
    }

    /// A file was made.
    pub(crate) fn note_made(&self) {
        self.written.set(0);
        self.stage.set(None);
        self.keep_count();
        self.count.set(Count::new());
    }

    // Keeps the sizes of what was written, where it was a formula.
    fn keep_count(&self) {
        let sizes = self.count.get().sizes();
        if sizes.is_some() {
            self.after.set(sizes);
        }
    }

    /// These bytes were put behind it.
    pub(crate) fn note_written(&self, bytes: &[u8]) {
        if !self.is_on() {
            return;
        }
        self.written
            .set(self.written.get().saturating_add(bytes.len() as u64));
        self.count.set(self.count.get().take(bytes));
        if let Some(stage) = self.stage.get() {
            self.note_stage(Stage {
                pending: 0,
                ..stage
            });
        }
    }

    /// The first guide is about to be asked for the first time, or again.
    pub(crate) fn note_before(&self, kernel: &Kernel) {
        if self.is_on() && self.before.get().is_none() {
            self.before.set(Some(sizes_of(kernel)));
        }
    }

    /// A guide looks at something.
    pub(crate) fn note_look(&self, pass: Option<Pass>, kernel: &Kernel) {
        let rest = self.rest.get();
        if self.pass.get() == pass && rest > 0 {
            self.rest.set(rest - 1);
            return;
        }
        self.rest.set(LOOKS);
        self.pass.set(pass);
        if self.is_on() {
            self.note_stage(stage_of(kernel));
        }
    }

    /// No guide is left, so all rules are searched.
    pub(crate) fn note_search(&self, clauses: usize) {
        let Some(second) = self.second() else {
            return;
        };
        if second == 0 {
            return;
        }
        self.last_second.set(second);
        let (front, end) = self.edges();
        let _ = eprint!(self.rt;
            "{front}{second} s: last, every rule is searched over all {clauses} clauses{end}"
        );
    }

    // The formula is so far simplified.
    fn note_stage(&self, stage: Stage) {
        self.stage.set(Some(stage));
        let Some(second) = self.due() else {
            return;
        };
        let (front, end) = self.edges();
        let Stage {
            clauses,
            variables,
            pending,
        } = stage;
        let pass = word_of(self.pass.get());
        let moves = self.moves();
        let kilobytes = self.written.get().saturating_add(pending as u64) / 1000;
        let _ = eprint!(self.rt;
            "{front}{second} s{pass}: {clauses} clauses, {variables} variables, {moves} moves, {kilobytes} kB of log{end}"
        );
    }

    /// A target was taken.
    pub(crate) fn note_taken(&self, target: &Move) {
        if let Ok(mut taken) = self.taken.try_borrow_mut() {
            let rule = target.rule();
            taken[rule] = taken[rule].saturating_add(1);
        }
    }

    // How often each rule was taken.
    fn counts(&self) -> [u64; RULES] {
        match self.taken.try_borrow() {
            Ok(taken) => *taken,
            Err(_) => [0; RULES],
        }
    }

    // How many targets were taken.
    fn moves(&self) -> u64 {
        let mut moves = 0u64;
        for count in self.counts() {
            moves = moves.saturating_add(count);
        }
        moves
    }

    /// Takes the line away that stands on the terminal.
    pub(crate) fn wipe(&self) {
        if self.is_terminal && self.last_second.get() > 0 {
            let _ = eprint!(self.rt; "\r\x1b[K");
        }
    }

    /// Says which file could not be read on, and from which byte on. A command that meets such a fault puts `read fault` alone.
    pub(crate) fn say_read_fault(&self, name: &str, place: u64) {
        self.wipe();
        let _ = eprintln!(self.rt; "celdrinn: reading '{name}' failed behind byte {place}");
    }

    /// Says which file could not be written on.
    pub(crate) fn say_write_fault(&self, name: &str) {
        self.wipe();
        let _ = eprintln!(self.rt; "celdrinn: writing '{name}' failed; the disk may be full");
    }

    /// Says that a line could not be printed.
    pub(crate) fn say_print_fault(&self) {
        self.wipe();
        let _ = eprintln!(self.rt; "celdrinn: writing to standard output failed");
    }

    // Says how large a formula was.
    fn say_sizes(&self, when: &str, sizes: Option<Sizes>) {
        if let Some(sizes) = sizes {
            let Sizes {
                clauses,
                literals,
                variables,
                blocks,
            } = sizes;
            let _ = eprintln!(self.rt;
                "{when} {clauses} clauses, {literals} literals, {variables} variables, {blocks} blocks"
            );
        }
    }

    /// Says what became smaller, and how often each rule was taken.
    pub(crate) fn finish(&self) {
        if self.before.get().is_none() || (self.last_second.get() == 0 && !self.is_wanted) {
            return;
        }
        self.keep_count();
        self.say_sizes("before:", self.before.get());
        self.say_sizes("after: ", self.after.get());
        let moves = self.moves();
        let _ = eprintln!(self.rt; "{moves} moves proposed and taken");
        let counts = self.counts();
        for rule in 0..RULES {
            let count = counts[rule];
            let name = RULE_NAMES[rule];
            let _ = eprintln!(self.rt; "{count:>10} {name}");
        }
    }
}
