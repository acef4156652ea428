// Makes steps of bytes.
ghost use Rattle.std.specs.Prelude.{◌≡◌, ◌<◌, ◌≤◌, Some, is_some};
ghost use Rattle.q_binary.specs.BinaryProofs.{between, move, step_of_entry, with_number};
ghost use Rattle.q_binary.specs.Reading.{Builds};

use crate::groups::Groups;
use q_log::LogError;
use q_logic::{Kind, Lit, Lits, Step};
use std::alloc::Global;

/// A step that has begun: whether it deletes, its literals, and the groups of the next number.
#[derive(Drop)]
pub(crate) struct ByteBuilder {
    alloc: Global,
    deletes: Option<bool>,
    lits: Lits,
    groups: Groups,
    spare: Lits,
}

impl ByteBuilder {
    ghost use Rattle.q_binary.specs.Builders.{place_in, more_groups};

    /// A builder of steps of which none has begun.
    pub fn new(alloc: Global) -> ByteBuilder
        ensures { place_in result ≡ between }
    {
        ByteBuilder {
            alloc,
            deletes: None,
            lits: Lits::new(alloc),
            groups: Groups::none(),
            spare: Lits::new(alloc),
        }
    }

    /// The step that the byte makes whole; it has this number.
    pub fn take(&mut self, byte: u8, number: u64) -> Result<Option<(u64, Step)>, LogError>
        ensures { Builds result (move (place_in self.old) byte) (place_in self.new) number }
    {
        let Some(deletes) = self.deletes else {
            return self.begin(byte, number);
        };
        if byte >= 128 {
            return self.group(deletes, byte - 128, number);
        }
        let value = self.groups.value(byte);
        if value == 0 {
            return Ok(Some((number, self.end(deletes))));
        }
        self.literal(deletes, value, number)
    }

    // A letter.
    fn begin(&mut self, byte: u8, number: u64) -> Result<Option<(u64, Step)>, LogError>
        ensures { Builds result (move between byte) (place_in self.new) number }
    {
        let deletes = match byte {
            b'a' => false,
            b'd' => true,
            _ => return Err(LogError::BadLine { line: number }),
        };
        self.lits.clear();
        self.groups = Groups::none();
        self.deletes = Some(deletes);
        Ok(None)
    }

    // A group that is not the last one.
    fn group(
        &mut self,
        deletes: bool,
        group: u8,
        number: u64,
    ) -> Result<Option<(u64, Step)>, LogError>
        requires begun { self.old.deletes ≡ Some deletes }
        requires small { group < 128 }
        ensures { Builds result (more_groups deletes self.old.lits self.old.groups group) (place_in self.new) number }
    {
        if self.groups.add(group) {
            return Ok(None);
        }
        Err(LogError::BadLine { line: number })
    }

    // A literal.
    fn literal(
        &mut self,
        deletes: bool,
        value: u64,
        number: u64,
    ) -> Result<Option<(u64, Step)>, LogError>
        requires begun { self.old.deletes ≡ Some deletes }
        requires some { 1 ≤ value }
        ensures { Builds result (with_number deletes self.old.lits value) (place_in self.new) number }
    {
        if value < 2 || value > 4_294_967_295 {
            return Err(LogError::BadLine { line: number });
        }
        let lit = Lit::new((value / 2) as u32, value % 2 == 1);
        self.lits.push(lit)?;
        self.groups = Groups::none();
        Ok(None)
    }

    // The step that has begun.
    fn end(&mut self, deletes: bool) -> Step
        ensures step { result ≡ step_of_entry (record { deletes = deletes; lits = self.old.lits }) }
        ensures place { place_in self.new ≡ between }
    {
        let next = std::mem::replace(&mut self.spare, Lits::new(self.alloc));
        let lits = std::mem::replace(&mut self.lits, next);
        self.deletes = None;
        if deletes {
            Step::new(Kind::Delete, lits)
        } else {
            Step::new(Kind::Add, lits)
        }
    }

    /// A step has begun and is not whole.
    pub fn is_open(&self) -> bool
        ensures { result ≡ is_some self.now.deletes }
    {
        self.deletes.is_some()
    }

    /// Keeps the memory of a list of literals for a later step.
    pub fn keep(&mut self, lits: Lits)
        ensures { place_in self.new ≡ place_in self.old }
    {
        self.spare = lits;
        self.spare.clear();
    }
}
