//! What a check leaves, with which circuits are taken back over its steps.
ghost use Rattle.std.specs.Prelude.{◌≡◌, ◌∷◌, [], map, IfOk, Some, true, if◌then◌else◌, ◌&&◌};
ghost use Rattle.q_logic.specs.Prelude.{Literal, is_bound, OutersOf, freshened, removed};
ghost use Rattle.q_prop.specs.Slots.{filled};
ghost use Rattle.q_judge.specs.Entries.{entries_of, IsPivotEntry, kept_pivot as pivot_kept};

use crate::pivots::{Warrant, push_outer};
use crate::view::View;
use q_logic::{Clauses, Lit, NoMemory};
use std::alloc::Global;
use std::marker::Model;

/// What one step leaves.
#[derive(Drop)]
pub enum Undo {
    /// A clause went by its pivot; the outer clauses are those of the clauses with the pivot's negation.
    Pivot { pivot: Lit, outer: Clauses },
    Removed { var: u32 },
    Fresh { var: u32 },
}

/// What the steps left, in their order.
#[derive(Drop)]
pub struct Undos {
    entries: Vec<Undo>,
}

impl Model for Undos {
    ghost use Rattle.std.specs.Prelude.{List, map};
    ghost use Rattle.q_logic.specs.Prelude.{UndoEntry};
    ghost use Rattle.q_judge.specs.Entries.{entry_of};

    ghost Value = { List UndoEntry };

    ghost view = { λ u. map entry_of u.entries.items };
}

impl Undos {
    ghost use Rattle.q_judge.specs.Entries.{entry_of};

    pub fn from_entries(entries: Vec<Undo>) -> Undos
        ensures { result ≡ map entry_of entries.items }
    {
        Undos { entries }
    }

    pub fn as_slice(&self) -> &[Undo]
        ensures { map entry_of result.now ≡ self.now }
    {
        &self.entries
    }
}

/// The outer clauses on m of the clauses that hold m. Each is gathered in `outer` first.
pub fn collect_outers(
    alloc: Global,
    view: &View,
    outer: &mut Vec<Lit>,
    m: Lit,
) -> Result<Clauses, NoMemory>
    requires { is_bound view.now.prefix m.var ≡ true }
    ensures { IfOk result (λ c. OutersOf view.now.prefix (filled view.now.slots) m c) }
{
    let slots = view.slots_of(m);
    let mut outers = Clauses::new(alloc);
    for at in slots {
        if let Some(clause) = view.clause(*at as usize) {
            outer.clear();
            push_outer(outer, view.scope(), clause, m)?;
            outers.push(outer)?;
        }
    }
    Ok(outers)
}

/// The pivot whose outer clauses a deletion leaves: none where the undo list is not kept or the clause is implied.
pub fn kept_pivot(keep: bool, warrant: Warrant, first: Option<Lit>) -> Option<Lit>
    ensures { result ≡ pivot_kept keep warrant first }
{
    match warrant {
        Warrant::Pivot if keep => first,
        Warrant::Pivot | Warrant::Propagation => None,
    }
}

/// What a deletion by the pivot leaves, beside the clauses that stay.
pub fn pivot_entry(
    alloc: Global,
    view: &View,
    joined: &mut Vec<Lit>,
    pivot: Option<Lit>,
) -> Result<Option<Undo>, NoMemory>
    requires { (l : Literal) → pivot ≡ Some l → is_bound view.now.prefix l.var ≡ true }
    ensures { IfOk result (λ u.
        IsPivotEntry view.now.prefix (filled view.now.slots) pivot u) }
{
    let Some(pivot) = pivot else {
        return Ok(None);
    };
    let outer = collect_outers(alloc, view, joined, pivot.negated())?;
    Ok(Some(Undo::Pivot { pivot, outer }))
}

/// What a fresh variable leaves, where the undo list is kept.
pub fn fresh_entry(keep: bool, var: u32) -> Option<Undo>
    ensures { entries_of result ≡ (if keep then freshened var ∷ [] else []) }
{
    if keep {
        Some(Undo::Fresh { var })
    } else {
        None
    }
}

/// What a removed variable leaves, where the undo list is kept.
pub fn removed_entry(keep: bool, existential: bool, var: u32) -> Option<Undo>
    ensures { entries_of result ≡ (if keep && existential then removed var ∷ [] else []) }
{
    if keep && existential {
        Some(Undo::Removed { var })
    } else {
        None
    }
}
