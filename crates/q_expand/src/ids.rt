// The clauses that a walk has met, in their order, and a mark for each.
ghost use Rattle.std.specs.Prelude.{◌≡◌, ◌↔◌, ◌<◌, ◌++◌, ◌∷◌, [], ℕ, length, slice_get, OnOk, OnErr, Some, IsTrue, slice_index_or, vec_len, true, false};
ghost use Rattle.q_kernel.specs.Lists.{Has, AreApart};
ghost use Rattle.q_expand.specs.Ids.{AreNoted};

use q_kernel::ClauseId;
use q_logic::NoMemory;
use std::alloc::Global;
use std::marker::Model;

/// The clauses that a walk has met, each once, in the order in which it met them.
#[derive(Drop)]
pub(crate) struct Ids {
    ids: Vec<ClauseId>,
    marks: Vec<bool>,
}

impl Model for Ids {
    ghost use Rattle.std.specs.Prelude.{List, ℕ};
    ghost use Rattle.q_expand.specs.Ids.{AreNoted};

    ghost Value = { List ℕ };

    ghost view = { λ q. q.ids.items };

    ghost invariant = { λ q. AreNoted q.marks.items q.ids.items };
}

impl Ids {
    pub(crate) fn new(alloc: Global) -> Ids
        ensures { result ≡ [] }
    {
        Ids {
            ids: Vec::new(alloc),
            marks: Vec::new(alloc),
        }
    }

    pub(crate) fn len(&self) -> usize
        ensures { result ≡ length self.now }
    {
        self.ids.len()
    }

    pub(crate) fn at(&self, place: usize) -> ClauseId
        requires { place < length self.now }
        ensures { slice_get self.now place ≡ Some result }
    {
        self.ids[place]
    }

    pub(crate) fn has(&self, id: ClauseId) -> bool
        ensures { IsTrue result ↔ Has self.now id }
    {
        self.marks.get(id as usize).copied().unwrap_or(false)
    }

    pub(crate) fn push(&mut self, id: ClauseId) -> Result<(), NoMemory>
        ensures ok { OnOk result (self.new ≡ self.old ++ id ∷ []) }
        ensures err { OnErr result (self.new ≡ self.old) }
    {
        make_room(&mut self.marks, id)?;
        self.ids.push(id)?;
        self.marks[id as usize] = true;
        Ok(())
    }

    /// Takes all ids out. It costs what they are, not the row of marks.
    pub(crate) fn clear(&mut self)
        ensures { self.new ≡ [] }
    {
        unmark(&mut self.marks, &self.ids);
        self.ids.clear();
    }
}

fn make_room(marks: &mut Vec<bool>, id: ClauseId) -> Result<(), NoMemory>
    ensures room { OnOk result (id < vec_len marks.new) }
    ensures same { (k : ℕ) → slice_index_or marks.new.items k false
        ≡ slice_index_or marks.old.items k false }
{
    let end = id as usize + 1;
    if marks.len() < end {
        marks.resize(end, false)?;
    }
    Ok(())
}

// Takes the marks of the ids away, which are all that there are.
fn unmark(marks: &mut Vec<bool>, ids: &[ClauseId])
    requires { AreNoted marks.old.items ids.now }
    ensures { AreNoted marks.new.items [] }
{
    for id in ids {
        marks[*id as usize] = false;
    }
}
