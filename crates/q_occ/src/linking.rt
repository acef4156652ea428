// All places of one clause put into the lists of its literals, and taken out of them.
ghost use Rattle.std.specs.Prelude.{◌≡◌, ◌≤◌, ◌<◌, ◌+◌, ◌^◌, ℕ, length, slice_index_or};
ghost use Rattle.q_logic.specs.Prelude.{Literal, pack};
ghost use Rattle.q_arena.specs.Prelude.{Has, list_at};
ghost use Rattle.q_occ.specs.Places.{no_lit, IsLinkedUpto, IsUnlinkedUpto, AreOwnedUpto};

use q_arena::Rings;
use q_logic::Lit;

/// Links each literal of a clause.
pub fn link_all(rings: &mut Rings, start: usize, lits: &[Lit], id: u32)
    requires heads { (k : ℕ) → k < length lits.now → pack (slice_index_or lits.now k no_lit)
        < length rings.old.lists }
    requires room { (k : ℕ) → k < length lits.now → start + k < length rings.old.owners }
    requires fits { start + length lits.now < 18446744073709551616 }
    requires fresh { (k l : ℕ) → k < length lits.now → Has (list_at rings.old l) (start + k) → ⊥ }
    ensures linked { IsLinkedUpto rings.old rings.new lits.now start (length lits.now) }
    ensures owners { AreOwnedUpto rings.old.owners rings.new.owners start (length lits.now) id }
    ensures heads { length rings.new.lists ≡ length rings.old.lists }
    ensures room { length rings.new.owners ≡ length rings.old.owners }
{
    for k in 0..lits.len() {
        rings.push_front(lits[k].index(), start + k, id);
    }
}

/// Unlinks each literal of a clause.
pub fn unlink_all(rings: &mut Rings, start: usize, lits: &[Lit])
    requires fits { start + length lits.now < 18446744073709551616 }
    requires linked { (k : ℕ) → k < length lits.now
        → Has (list_at rings.old (pack (slice_index_or lits.now k no_lit))) (start + k) }
    ensures unlinked { IsUnlinkedUpto rings.old rings.new start (length lits.now) }
    ensures owners { rings.new.owners ≡ rings.old.owners }
    ensures heads { length rings.new.lists ≡ length rings.old.lists }
{
    for k in 0..lits.len() {
        rings.distinct();
        rings.remove(lits[k].index(), start + k);
    }
}
