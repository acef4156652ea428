// The reader of logs, and the steps printed again.
ghost use Rattle.std.specs.Prelude.{◌≤◌, ◌^◌};

use crate::trouble::Trouble;
use q_log::{LogError, LogReader, push_step, step_len};
use q_logic::Step;
use std::alloc::Global;

/// What a log says: each step behind its line, and the refusal.
#[derive(Drop)]
struct Told {
    alloc: Global,
    text: Vec<u8>,
    refusal: Option<LogError>,
}

impl Told {
    fn note_all(&mut self, limit: u64, log: &[u8]) -> Result<(), Trouble>
        requires { limit ≤ 2 ^ 62 }
    {
        let Ok(mut reader) = LogReader::new(self.alloc, limit) else {
            return Err(Trouble::NoMemory);
        };
        for byte in log {
            self.note(reader.push(*byte))?;
        }
        self.note(reader.finish())
    }

    fn note(&mut self, answer: Result<Option<(u64, Step)>, LogError>) -> Result<(), Trouble> {
        if self.refusal.is_some() {
            return self.note_again(answer);
        }
        match answer {
            Ok(Some((line, step))) => self.note_step(line, &step),
            Ok(None) => Ok(()),
            Err(error) => {
                self.refusal = Some(error);
                Ok(())
            }
        }
    }

    fn note_again(&mut self, answer: Result<Option<(u64, Step)>, LogError>) -> Result<(), Trouble> {
        if answer.err() != self.refusal {
            return Err(Trouble::Unreadable("a refusal that lasts"));
        }
        Ok(())
    }

    fn note_step(&mut self, line: u64, step: &Step) -> Result<(), Trouble> {
        let place = format!(in self.alloc; "{line}: ")?;
        self.text.extend_from_slice(place.as_bytes())?;
        let before = self.text.len();
        push_step(&mut self.text, step)?;
        if self.text.len().saturating_sub(before) != step_len(step) {
            return Err(Trouble::Unreadable("the length of a step"));
        }
        Ok(())
    }

    // A line for the refusal, behind the steps.
    fn close(mut self) -> Result<Vec<u8>, Trouble> {
        let said = match self.refusal {
            None => return Ok(self.text),
            Some(LogError::NoMemory) => return Err(Trouble::NoMemory),
            Some(LogError::BadLine { line }) => format!(in self.alloc; "refused line {line}\n")?,
            Some(LogError::Limit { line }) => {
                format!(in self.alloc; "past the limit in line {line}\n")?
            }
        };
        self.text.extend_from_slice(said.as_bytes())?;
        Ok(self.text)
    }
}

/// What reading a log answers.
pub(crate) fn log_answer(alloc: Global, limit: u64, log: &[u8]) -> Result<Vec<u8>, Trouble>
    requires { limit ≤ 2 ^ 62 }
{
    let mut told = Told {
        alloc,
        text: Vec::new(alloc),
        refusal: None,
    };
    told.note_all(limit, log)?;
    told.close()
}
