//! A guide that was given its proposals as a list.
//!
//! Whoever knows the formula may know what to do first. Each target is proposed once, in the order of the list; what does not apply
//! by then is refused by the drive, as any proposal is, and so many refusals end the list as end any guide. The list is kept as the
//! text that it was given as.
ghost use Rattle.std.specs.Prelude.{◌≡◌, IfErr, IfSome, None, OnOk, Some};
ghost use Rattle.q_logic.specs.Prelude.{Rose};
ghost use Rattle.q_guides.specs.MoveTexts.{line_of, wrong_line as spec_wrong_line};

use crate::move_text::{first_line, move_of, wrong_line};
use q_kernel::Kernel;
use q_sched::{Guide, Move, Proposal};
use std::alloc::Global;

/// Why a text lists no moves: the line of this number, counted from 1, is wrong, or memory is wanting.
#[derive(Clone, Copy, Debug, PartialEq, Eq)]
pub enum NoMoves {
    Line(usize),
    NoMemory,
}

// A text of moves, and where the line begins that comes next.
#[derive(Drop)]
struct Lines {
    text: Vec<u8>,
    at: usize,
}

impl Lines {
    // The next move. Lines without one are passed over.
    fn next(&mut self) -> Option<Move> {
        for _ in 0..self.text.len() {
            if self.at >= self.text.len() {
                return None;
            }
            let (line, rest) = first_line(&self.text[self.at..]);
            self.at = self.text.len().saturating_sub(rest.len());
            let found = move_of(line);
            if found.is_some() {
                return found;
            }
        }
        None
    }
}

/// Proposes the targets of a list, one after the other.
#[derive(Drop)]
pub struct Listed {
    lines: Lines,
    asked: u64,
    last: Proposal,
    heard: bool,
}

impl Listed {
    /// The list of a text, which has a line for each target. Memory aside it is refused exactly where a line is wrong.
    pub fn read(alloc: Global, text: &[u8]) -> Result<Listed, NoMoves>
        ensures right { OnOk result (spec_wrong_line text.now ≡ None) }
        ensures wrong { IfErr result (λ e.
            IfSome (line_of e) (λ n. spec_wrong_line text.now ≡ Some n)) }
    {
        if let Some(number) = wrong_line(text) {
            return Err(NoMoves::Line(number));
        }
        match Vec::from_slice(alloc, text) {
            Ok(text) => Ok(Listed {
                lines: Lines { text, at: 0 },
                asked: 0,
                last: Proposal::Done,
                heard: false,
            }),
            Err(_) => Err(NoMoves::NoMemory),
        }
    }
}

impl Guide for Listed {
    ghost asked = { λ g. g.asked };

    ghost last = { λ g. g.last };

    ghost heard = { λ g. g.heard };

    fn propose(&mut self, _: &Kernel) -> Proposal {
        self.asked = self.asked.saturating_add(1);
        self.last = match self.lines.next() {
            Some(target) => Proposal::Take(target),
            None => Proposal::Done,
        };
        self.last
    }

    fn told(&mut self, taken: bool) {
        self.heard = taken;
    }
}
