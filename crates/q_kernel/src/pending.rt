// The text of the steps that are not yet written to the log. Its room is a number beside the text, reserved before a rule is
// taken, so that a step is appended without memory.
ghost use Rattle.std.specs.Prelude.{◌≡◌, ◌≤◌, ◌+◌, ◌++◌, [], length, OnOk};
ghost use Rattle.q_logic.specs.Prelude.{IsBelow, ArePairs};
ghost use Rattle.q_log.specs.Texts.{step_text, written, shorter, IsWritable};

use q_log::{write_shorter, write_step};
use q_logic::{Kind, Lit, NoMemory};
use std::alloc::Global;
use std::marker::Model;

/// The text of the pending steps, and how many bytes may come without memory.
#[derive(Drop)]
pub(crate) struct Pending {
    text: Vec<u8>,
    spare: usize,
}

impl Model for Pending {
    ghost use Rattle.std.specs.Prelude.{◌≤◌, ◌+◌, vec_len, vec_capacity};
    ghost use Rattle.q_kernel.specs.Listing.{Logged};

    ghost Value = { Logged };

    ghost view = { λ p. record { text = p.text.items; spare = p.spare } };

    ghost invariant = { λ p. vec_len p.text + p.spare ≤ vec_capacity p.text };
}

impl Pending {
    pub(crate) fn new(alloc: Global) -> Pending
        ensures { result ≡ record { text = []; spare = 0 } }
    {
        Pending {
            text: Vec::new(alloc),
            spare: 0,
        }
    }

    pub(crate) fn allocator(&self) -> Global {
        *self.text.allocator()
    }

    pub(crate) fn text(&self) -> &[u8]
        ensures { result.now ≡ self.now.text }
    {
        &self.text
    }

    pub(crate) fn clear(&mut self)
        ensures text { self.new.text ≡ [] }
        ensures spare { self.old.spare ≤ self.new.spare }
    {
        self.text.clear();
    }

    /// Makes the spare bytes at least so many.
    pub(crate) fn reserve(&mut self, bytes: usize) -> Result<(), NoMemory>
        ensures text { self.new.text ≡ self.old.text }
        ensures spare { OnOk result (bytes ≤ self.new.spare) }
        ensures kept { self.old.spare ≤ self.new.spare }
    {
        if self.spare < bytes {
            self.text.reserve(bytes)?;
            self.spare = bytes;
        }
        Ok(())
    }

    /// Appends a step.
    pub(crate) fn append(&mut self, kind: Kind, first: Option<Lit>, lits: &[Lit])
        requires form { IsWritable kind first lits.now }
        requires room { length (step_text (written kind first lits.now)) ≤ self.old.spare }
        ensures text { self.new.text ≡ self.old.text ++ step_text (written kind first lits.now) }
        ensures spare { self.old.spare ≡ self.new.spare + length
            (step_text (written kind first lits.now)) }
    {
        let before = self.text.len();
        write_step(&mut self.text, kind, first, lits);
        self.spare -= self.text.len() - before;
    }

    /// Appends the addition of a clause without one of its literals.
    pub(crate) fn append_shorter(&mut self, lits: &[Lit], out: Lit)
        requires ordered { ArePairs IsBelow lits.now }
        requires room { length (step_text (shorter out lits.now)) ≤ self.old.spare }
        ensures text { self.new.text ≡ self.old.text ++ step_text (shorter out lits.now) }
        ensures spare { self.old.spare ≡ self.new.spare + length
            (step_text (shorter out lits.now)) }
    {
        let before = self.text.len();
        write_shorter(&mut self.text, lits, out);
        self.spare -= self.text.len() - before;
    }
}
