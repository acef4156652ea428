// One row: its files, formula, limits and bounds, and its lines one after the other.
ghost use Rattle.std.specs.Prelude.{IfOk};
ghost use Rattle.q_logic.specs.Prelude.{AreModerate};

use crate::checking::{answers, undo_list};
use crate::desk::{Desk, Said};
use crate::formulas::{formula_of, formula_text};
use crate::implying::implied;
use crate::logging::log_answer;
use crate::notation::{bytes_of, compare, number};
use crate::reading::read_answer;
use crate::taking::answer;
use crate::trouble::Trouble;
use q_io::Call;
use q_logic::{Bounds, Formula, Limits};
use std::alloc::Global;

/// What the lines of a row so far have set up.
#[derive(Drop)]
pub struct Stage {
    alloc: Global,
    desk: Desk,
    formula: Formula,
    limits: Limits,
    bounds: Bounds,
}

impl Stage {
    pub(crate) fn new(alloc: Global) -> Result<Stage, Trouble> {
        let formula = formula_of(alloc, "nothing")?;
        Ok(Stage {
            alloc,
            desk: Desk::new(alloc),
            formula,
            limits: Limits::standard(),
            bounds: Bounds::usual(),
        })
    }

    /// Does what a line says, and compares what comes with what it wants.
    pub(crate) fn play(&mut self, line: &str) -> Result<(), Trouble> {
        match line.split_once(" =>") {
            None => self.give(line),
            Some((doing, wanted)) => {
                let (verb, rest) = doing.split_once(' ').unwrap_or((doing, ""));
                self.act(verb, rest, wanted.strip_prefix(' ').unwrap_or(wanted))
            }
        }
    }

    // A line that sets something up.
    fn give(&mut self, line: &str) -> Result<(), Trouble> {
        let (first, rest) = line.split_once(' ').unwrap_or((line, ""));
        match first {
            "formula" | "limits" | "bounds" => self.set(first, rest),
            "fault" => self.plan(rest),
            "memory" | "ring" => self.prepare(first, rest),
            "guide" => self.desk.guide(1, rest),
            "guides" => self.guides(rest),
            _ => self.put(first, rest),
        }
    }

    fn set(&mut self, what: &str, text: &str) -> Result<(), Trouble> {
        match what {
            "formula" => self.formula = formula_of(self.alloc, text)?,
            "limits" => self.limits = limits_of(text)?,
            _ => self.bounds = bounds_of(text)?,
        }
        Ok(())
    }

    fn prepare(&mut self, what: &str, turn: &str) -> Result<(), Trouble> {
        match what {
            "memory" => self.desk.stand_alone(),
            _ => self.desk.ring(u64::from(number(turn)?)),
        }
        Ok(())
    }

    // `NAME: TEXT` gives a file its bytes, and `NAME + TEXT` gives it more.
    fn put(&mut self, first: &str, rest: &str) -> Result<(), Trouble> {
        if let Some(name) = first.strip_suffix(':') {
            let bytes = self.text(rest)?;
            return self.desk.put(name, &bytes);
        }
        let Some(more) = rest.strip_prefix("+ ") else {
            return Err(Trouble::Unreadable("a line"));
        };
        let bytes = self.longer(first, more)?;
        self.desk.put(first, &bytes)
    }

    // The bytes of a file, and those of a text behind them.
    fn longer(&self, name: &str, more: &str) -> Result<Vec<u8>, Trouble> {
        let mut bytes = self.held(name)?;
        self.extend(&mut bytes, more)?;
        Ok(bytes)
    }

    fn extend(&self, bytes: &mut Vec<u8>, more: &str) -> Result<(), Trouble> {
        let more = self.text(more)?;
        Ok(bytes.extend_from_slice(&more)?)
    }

    // The bytes of a text: `same as NAME`, `N times TEXT`, or lines.
    fn text(&self, text: &str) -> Result<Vec<u8>, Trouble> {
        if let Some(name) = text.strip_prefix("same as ") {
            return self.held(name);
        }
        let Some((count, once)) = text.split_once(" times ") else {
            return bytes_of(self.alloc, text);
        };
        let once = bytes_of(self.alloc, once)?;
        let mut bytes = Vec::new(self.alloc);
        for _ in 0..number(count)? {
            bytes.extend_from_slice(&once)?;
        }
        Ok(bytes)
    }

    fn held(&self, name: &str) -> Result<Vec<u8>, Trouble> {
        match self.desk.file(name) {
            Some(bytes) => Ok(Vec::from_slice(self.alloc, bytes)?),
            None => Err(Trouble::Unreadable("a file that is held")),
        }
    }

    // `read 2`, `create 1`, `append 1 part 3` or `put 1`: that call of its kind fails.
    fn plan(&mut self, fault: &str) -> Result<(), Trouble> {
        let (kind, rest) = fault.split_once(' ').unwrap_or((fault, ""));
        let (nth, part) = rest.split_once(" part ").unwrap_or((rest, "0"));
        let nth = u64::from(number(nth)?);
        let part = number(part)? as usize;
        match kind {
            "read" => self.desk.plan(Call::Read, nth, part),
            "create" => self.desk.plan(Call::Create, nth, part),
            "append" => self.desk.plan(Call::Append, nth, part),
            _ => self.desk.plan_put(nth),
        }
    }

    // `COUNT GUIDE`
    fn guides(&mut self, text: &str) -> Result<(), Trouble> {
        let (count, guide) = text.split_once(' ').unwrap_or((text, ""));
        self.desk.guide(number(count)?, guide)
    }

    fn act(&mut self, verb: &str, rest: &str, wanted: &str) -> Result<(), Trouble> {
        match verb {
            "run" => self.run(rest, wanted),
            "show" => self.show(rest, wanted),
            "alarm" => self.alarm(wanted),
            "read" | "log" | "steps" | "undo" => self.read(verb, rest, wanted),
            _ => self.apply(verb, rest, wanted),
        }
    }

    // A command: its words, and wanted its status and the line that it puts.
    fn run(&mut self, words: &str, wanted: &str) -> Result<(), Trouble> {
        let said = self.said(words)?;
        let (code, line) = wanted.split_once(' ').unwrap_or((wanted, ""));
        self.compare_lines(line, &said)?;
        self.compare_status(code, said.status.code())
    }

    fn said(&mut self, words: &str) -> Result<Said, Trouble> {
        let words = words_of(self.alloc, words)?;
        self.desk.run(&words)
    }

    fn compare_status(&self, wanted: &str, got: u8) -> Result<(), Trouble> {
        let got = format!(in self.alloc; "{got}")?;
        compare(self.alloc, wanted.as_bytes(), got.as_bytes())
    }

    // A line that ends with ` ..` is wanted as far as it goes.
    fn compare_lines(&self, line: &str, said: &Said) -> Result<(), Trouble> {
        match line.strip_suffix(" ..") {
            Some(front) if said.line.starts_with(front.as_bytes()) => Ok(()),
            _ => {
                let wanted = bytes_of(self.alloc, line)?;
                compare(self.alloc, &wanted, &said.line)
            }
        }
    }

    // What a file holds, on each device; `not held` where there is no such file.
    fn show(&mut self, name: &str, wanted: &str) -> Result<(), Trouble> {
        self.desk.agree(name)?;
        if wanted == "not held" {
            return match self.desk.file(name) {
                None => Ok(()),
                Some(_) => Err(Trouble::Unreadable("a file that is not held")),
            };
        }
        let got = self.held(name)?;
        self.compare_text(wanted, &got)
    }

    fn compare_text(&self, wanted: &str, got: &[u8]) -> Result<(), Trouble> {
        let wanted = self.text(wanted)?;
        compare(self.alloc, &wanted, got)
    }

    // How often the alarm of the last command was asked and rang, and what it was set to.
    fn alarm(&self, wanted: &str) -> Result<(), Trouble> {
        let got = self.desk.alarm()?;
        compare(self.alloc, wanted.as_bytes(), got.as_bytes())
    }

    // A text that is read, or steps on the formula: wanted is the answer, or the undo list of a run to `nothing`.
    fn read(&self, verb: &str, text: &str, wanted: &str) -> Result<(), Trouble> {
        let bytes = self.text(text)?;
        let got = self.reading_of(verb, &bytes)?;
        self.compare_text(wanted, &got)
    }

    fn reading_of(&self, verb: &str, bytes: &[u8]) -> Result<Vec<u8>, Trouble> {
        if verb == "undo" {
            return undo_list(self.alloc, &self.formula, bytes);
        }
        let limits = moderate(self.limits)?;
        match verb {
            "read" => read_answer(self.alloc, limits, bytes),
            "log" => log_answer(self.alloc, limits.bytes, bytes),
            _ => answers(self.alloc, &self.formula, limits, bytes),
        }
    }

    fn apply(&self, verb: &str, rest: &str, wanted: &str) -> Result<(), Trouble> {
        let got = self.applied(verb, rest)?;
        let wanted = same_order(self.alloc, wanted)?;
        compare(self.alloc, wanted.as_bytes(), got.as_bytes())
    }

    fn applied(&self, verb: &str, rest: &str) -> Result<String, Trouble> {
        match verb {
            "implied" => implied(self.alloc, &self.formula, rest),
            _ => answer(self.alloc, &self.formula, &self.bounds, verb, rest),
        }
    }
}

// `yes FORMULA`, its clauses brought into order.
fn same_order(alloc: Global, wanted: &str) -> Result<String, Trouble> {
    let Some(text) = wanted.strip_prefix("yes ") else {
        return Ok(String::from_str(alloc, wanted)?);
    };
    let formula = formula_of(alloc, text)?;
    let text = formula_text(alloc, &formula)?;
    Ok(format!(in alloc; "yes {text}")?)
}

// The words of a command, divided by spaces.
fn words_of(alloc: Global, text: &str) -> Result<Vec<String>, Trouble> {
    let mut words = Vec::new(alloc);
    for word in text.split_whitespace() {
        words.push(String::from_str(alloc, word)?)?;
    }
    Ok(words)
}

// The greatest variable, and the numbers of clauses, literals and bytes.
fn limits_of(text: &str) -> Result<Limits, Trouble> {
    let mut numbers = [0u32; 4];
    for (given, word) in numbers.iter_mut().zip(text.split(' ')) {
        *given = number(word)?;
    }
    let [vars, clauses, lits, bytes] = numbers;
    Ok(Limits {
        vars,
        clauses: u64::from(clauses),
        lits: u64::from(lits),
        bytes: u64::from(bytes),
    })
}

// `grow N expand N`, both at most 10,000
fn bounds_of(text: &str) -> Result<Bounds, Trouble> {
    let Some((grow, expand)) = text.split_once(" expand ") else {
        return Err(Trouble::Unreadable("bounds"));
    };
    let grow = number(grow.strip_prefix("grow ").unwrap_or(grow))?;
    let expand = number(expand)?;
    if grow > 10_000 || expand > 10_000 {
        return Err(Trouble::Unreadable("small bounds"));
    }
    Ok(Bounds { grow, expand })
}

fn moderate(limits: Limits) -> Result<Limits, Trouble>
    ensures { IfOk result (λ l. AreModerate l) }
{
    let is_small = limits.vars <= 16_777_215 && limits.bytes <= 1_099_511_627_776;
    if is_small && limits.clauses <= 4_294_967_295 && limits.lits <= 4_294_967_295 {
        return Ok(limits);
    }
    Err(Trouble::Unreadable("small limits"))
}
