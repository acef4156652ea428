//! Clauses with which one clause is joined in turn.
ghost use Rattle.std.specs.Prelude.{◌≡◌, ◌<◌, ◌++◌, ◌∷◌, [], length, slice_get, OnOk, OnErr, Some};

use q_logic::{Lit, NoMemory};
use std::alloc::Global;
use std::marker::Model;

/// Where a clause stands in the row of literals.
#[derive(Clone, Copy)]
pub struct Span {
    pub start: usize,
    pub end: usize,
}

/// Clauses one after the other, in one row of literals that is used again.
#[derive(Drop)]
pub struct Tails {
    lits: Vec<Lit>,
    spans: Vec<Span>,
}

impl Model for Tails {
    ghost use Rattle.std.specs.Prelude.{List, map};
    ghost use Rattle.q_logic.specs.Prelude.{Clause};
    ghost use Rattle.q_prop.specs.Tails.{tail_of, AreSpans};

    ghost Value = { List Clause };

    ghost view = { λ r. map (tail_of r.lits.items) r.spans.items };

    ghost invariant = { λ r. AreSpans r.lits.items r.spans.items };
}

impl Tails {
    pub fn new(alloc: Global) -> Tails
        ensures { result ≡ [] }
    {
        Tails {
            lits: Vec::new(alloc),
            spans: Vec::new(alloc),
        }
    }

    pub fn len(&self) -> usize
        ensures { result ≡ length self.now }
    {
        self.spans.len()
    }

    pub fn tail(&self, at: usize) -> &[Lit]
        requires { at < length self.now }
        ensures { slice_get self.now at ≡ Some result.now }
    {
        let span = self.spans[at];
        &self.lits[span.start..span.end]
    }

    pub fn clear(&mut self)
        ensures { self.new ≡ [] }
    {
        self.spans.clear();
        self.lits.clear();
    }

    pub fn push(&mut self, lits: &[Lit]) -> Result<(), NoMemory>
        ensures ok { OnOk result (self.new ≡ self.old ++ lits.now ∷ []) }
        ensures err { OnErr result (self.new ≡ self.old) }
    {
        self.spans.reserve(1)?;
        let start = self.lits.len();
        self.lits.extend_from_slice(lits)?;
        let span = Span {
            start,
            end: self.lits.len(),
        };
        self.spans.push_reserved(span);
        Ok(())
    }
}
