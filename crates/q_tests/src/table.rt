// A table of rows: each row is a line `row NAME` and the lines behind it. Lines that begin with `#` are for the reader.
use crate::stage::Stage;
use crate::trouble::Trouble;
use std::alloc::{AllocError, Global};

/// A row: its name, and each of its lines with its number in the table.
#[derive(Drop)]
pub struct Row<'a> {
    name: &'a str,
    lines: Vec<(usize, &'a str)>,
}

/// The rows of a table.
pub(crate) fn rows_of<'a>(alloc: Global, table: &'a str) -> Result<Vec<Row<'a>>, Trouble> {
    let mut rows = Vec::new(alloc);
    for (at, line) in table.lines().enumerate() {
        take_line(alloc, &mut rows, at, line)?;
    }
    Ok(rows)
}

fn take_line<'a>(
    alloc: Global,
    rows: &mut Vec<Row<'a>>,
    at: usize,
    line: &'a str,
) -> Result<(), Trouble> {
    if let Some(name) = line.strip_prefix("row ") {
        let lines = Vec::new(alloc);
        rows.push(Row { name, lines })?;
    } else if !line.is_empty() && !line.starts_with('#') {
        push_line(rows, at, line)?;
    }
    Ok(())
}

fn push_line<'a>(rows: &mut Vec<Row<'a>>, at: usize, line: &'a str) -> Result<(), Trouble> {
    match rows.last_mut() {
        Some(row) => row.lines.push((at, line))?,
        None => return Err(Trouble::Unreadable("a table that begins with a row")),
    }
    Ok(())
}

impl Row<'_> {
    // The first line that does not pass, and why.
    fn first_miss(&self, alloc: Global) -> Option<(usize, Trouble)> {
        match Stage::new(alloc) {
            Ok(mut stage) => self.first_miss_on(&mut stage),
            Err(trouble) => Some((0, trouble)),
        }
    }

    fn first_miss_on(&self, stage: &mut Stage) -> Option<(usize, Trouble)> {
        for (at, line) in &self.lines {
            if let Err(trouble) = stage.play(line) {
                return Some((*at, trouble));
            }
        }
        None
    }

    /// Plays the row: whether it passes, and the line or lines that say so.
    pub(crate) fn play(&self, alloc: Global) -> Result<(bool, String), AllocError> {
        let name = self.name;
        let Some((at, trouble)) = self.first_miss(alloc) else {
            return Ok((true, format!(in alloc; "ok {name}\n")?));
        };
        let line = at.saturating_add(1);
        let mut said = format!(in alloc; "WRONG {name}, line {line}\n")?;
        push_reason(&mut said, &trouble)?;
        Ok((false, said))
    }
}

fn push_reason(said: &mut String, trouble: &Trouble) -> Result<(), AllocError> {
    match trouble {
        Trouble::Differs { wanted, got } => write!(said, "  wanted {wanted}\n  got    {got}\n"),
        Trouble::Unreadable(what) => write!(said, "  this should be {what}\n"),
        Trouble::NoMemory => said.push_str("  no memory\n"),
    }
}
