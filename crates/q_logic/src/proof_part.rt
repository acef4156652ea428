//! The proof part of a step in a log with hints. The hints of all groups stand in one row, and each group
//! says where its own start, so that a proof that is used again takes no memory anew.
ghost use Rattle.std.specs.Prelude.{◌≡◌, ◌≢◌, ◌<◌, ◌≤◌, [], length, OnOk, OnErr};
ghost use Rattle.q_logic.specs.declared.proof_part.ProofKind.TheVariants.{Pivot};
ghost use Rattle.q_logic.specs.ProofParts.{AreStarts, begun_part, end_at, group_at, start_at, with_group, with_hint};

use crate::memory::NoMemory;
use std::alloc::Global;
use std::marker::Model;

/// How the proof part of a step shows that it is valid.
#[derive(Clone, Copy, Debug, PartialEq, Eq)]
pub enum ProofKind {
    Nothing,
    Implied,
    Pivot,
    Reach,
}

/// The clause that a group of hints is for, and where its hints start.
#[derive(Clone, Copy, Debug)]
struct GroupStart {
    target: u64,
    start: usize,
}

/// The proof part of a step: its kind, the number of the step's clause, and groups of hints.
#[derive(Drop)]
pub struct Proof {
    kind: ProofKind,
    number: u64,
    groups: Vec<GroupStart>,
    hints: Vec<u64>,
}

impl Model for Proof {
    ghost use Rattle.std.specs.Prelude.{length};
    ghost use Rattle.q_logic.specs.Hinted.{ProofPart};
    ghost use Rattle.q_logic.specs.ProofParts.{AreStarts, groups_of};

    ghost Value = { ProofPart };

    ghost view = { λ p. record {
      kind = p.kind;
      number = p.number;
      groups = groups_of p.kind p.groups.items p.hints.items;
    } };

    ghost invariant = { λ p. AreStarts 0 p.groups.items (length p.hints.items) };
}

impl Proof {
    /// A proof without hints. One of kind `Implied` has one group, for no target; the others have none. It takes no memory.
    pub fn new(alloc: Global, kind: ProofKind, number: u64) -> Proof
        ensures { result ≡ begun_part kind number }
    {
        Proof {
            kind,
            number,
            groups: Vec::new(alloc),
            hints: Vec::new(alloc),
        }
    }

    /// Begins anew, and keeps the memory for later hints.
    pub fn restart(&mut self, kind: ProofKind, number: u64)
        ensures { self.new ≡ begun_part kind number }
    {
        self.groups.clear();
        self.hints.clear();
        self.kind = kind;
        self.number = number;
    }

    pub fn kind(&self) -> ProofKind
        ensures { result ≡ self.now.kind }
    {
        self.kind
    }

    /// The number of the step's clause, 0 where there is none.
    pub fn number(&self) -> u64
        ensures { result ≡ self.now.number }
    {
        self.number
    }

    /// Begins a group for the clause with this number.
    pub fn begin_group(&mut self, target: u64) -> Result<(), NoMemory>
        requires { self.old.kind ≡ Pivot }
        ensures ok { OnOk result (self.new ≡ with_group target self.old) }
        ensures err { OnErr result (self.new ≡ self.old) }
    {
        let start = self.hints.len();
        self.groups.push(GroupStart { target, start })?;
        Ok(())
    }

    /// Puts a hint behind those of the last group.
    pub fn hint(&mut self, number: u64) -> Result<(), NoMemory>
        requires { self.old.groups ≢ [] }
        ensures ok { OnOk result (self.new ≡ with_hint number self.old) }
        ensures err { OnErr result (self.new ≡ self.old) }
    {
        self.hints.push(number)?;
        Ok(())
    }

    /// The number of groups.
    pub fn groups(&self) -> usize
        ensures { result ≡ length self.now.groups }
    {
        match self.kind {
            ProofKind::Implied => 1,
            _ => self.groups.len(),
        }
    }

    /// The number of the clause that the group at a place is for, 0 where there is none.
    pub fn target(&self, at: usize) -> u64
        requires { at < length self.now.groups }
        ensures { result ≡ (group_at self.now.groups at).target }
    {
        match self.kind {
            ProofKind::Implied => 0,
            _ => self.groups[at].target,
        }
    }

    /// The hints of the group at a place.
    pub fn hints(&self, at: usize) -> &[u64]
        requires { at < length self.now.groups }
        ensures { result.now ≡ (group_at self.now.groups at).hints }
    {
        match self.kind {
            ProofKind::Implied => &self.hints,
            _ => {
                let (start, end) = bounds(&self.groups, self.hints.len(), at);
                &self.hints[start..end]
            }
        }
    }
}

// Where the hints of the group at a place start and end, of so many hints.
fn bounds(groups: &[GroupStart], hints: usize, at: usize) -> (usize, usize)
    requires starts { AreStarts 0 groups.now hints }
    requires at { at < length groups.now }
    ensures start { result.0 ≡ (start_at groups.now at).start }
    ensures end { result.1 ≡ end_at groups.now hints at }
    ensures order { result.0 ≤ result.1 }
    ensures within { result.1 ≤ hints }
{
    let start = groups[at].start;
    if groups.len() - at == 1 {
        return (start, hints);
    }
    (start, groups[at + 1].start)
}
