// Which variables occur: what a clause that comes or goes does to the groups of `uses.rt`.
ghost use Rattle.std.specs.Prelude.{◌≡◌, ◌&&◌, ℕ, Bool, true, false};
ghost use Rattle.q_logic.specs.Prelude.{IsIn, is_bound, Within};
ghost use Rattle.q_kernel.specs.Uses.{AreUses, with_occurring};
ghost use Rattle.q_kernel.specs.Listing.{is_listed, with_clause, without_clause, AreGrouped};

use crate::uses::Uses;
use q_logic::Lit;
use q_occ::Occ;
use q_prefix::Prefix;

/// The variables of a clause occur.
pub(crate) fn occur_all(uses: &mut Uses, prefix: &Prefix, lits: &[Lit])
    requires within { Within prefix.now.bounds lits.now }
    requires grouped { AreGrouped uses.old prefix.now.bounds }
    ensures occurring { (occ : ℕ → Bool) → AreUses uses.old prefix.now.bounds occ
        → AreUses uses.new prefix.now.bounds (with_clause lits.now occ) }
    ensures room { uses.new.room ≡ uses.old.room }
{
    for lit in lits {
        start(uses, prefix, lit.var());
    }
}

// A variable occurs.
fn start(uses: &mut Uses, prefix: &Prefix, var: u32)
    requires bound { is_bound prefix.now.bounds var ≡ true }
    requires grouped { AreGrouped uses.old prefix.now.bounds }
    ensures occurring { (occ : ℕ → Bool) → AreUses uses.old prefix.now.bounds occ
        → AreUses uses.new prefix.now.bounds (with_occurring var true occ) }
    ensures room { uses.new.room ≡ uses.old.room }
{
    match prefix.quant(var) {
        Some(quant) => uses.occur(var, quant),
        None => {}
    }
}

// A variable does not occur.
fn stop(uses: &mut Uses, prefix: &Prefix, var: u32)
    requires bound { is_bound prefix.now.bounds var ≡ true }
    requires grouped { AreGrouped uses.old prefix.now.bounds }
    ensures occurring { (occ : ℕ → Bool) → AreUses uses.old prefix.now.bounds occ
        → AreUses uses.new prefix.now.bounds (with_occurring var false occ) }
    ensures room { uses.new.room ≡ uses.old.room }
{
    match prefix.quant(var) {
        Some(quant) => uses.vanish(var, quant),
        None => {}
    }
}

/// The variable of a literal stops to occur if it has left the lists.
pub(crate) fn vanish(uses: &mut Uses, prefix: &Prefix, occ: &Occ, lit: Lit)
    requires bound { is_bound prefix.now.bounds lit.var ≡ true }
    requires grouped { AreGrouped uses.old prefix.now.bounds }
    ensures occurring { (f : ℕ → Bool) → AreUses uses.old prefix.now.bounds f
        → AreUses uses.new prefix.now.bounds (with_occurring lit.var
        (f lit.var && is_listed occ.now lit.var) f) }
    ensures room { uses.new.room ≡ uses.old.room }
{
    if occ.count(lit) == 0 && occ.count(lit.negated()) == 0 {
        stop(uses, prefix, lit.var());
    }
}

/// The variables of a clause stop to occur if they have left the lists.
pub(crate) fn vanish_all(uses: &mut Uses, prefix: &Prefix, occ: &Occ, lits: &[Lit])
    requires within { Within prefix.now.bounds lits.now }
    requires grouped { AreGrouped uses.old prefix.now.bounds }
    ensures occurring { (f : ℕ → Bool) → AreUses uses.old prefix.now.bounds f
        → AreUses uses.new prefix.now.bounds (without_clause lits.now occ.now f) }
    ensures room { uses.new.room ≡ uses.old.room }
{
    for lit in lits {
        vanish(uses, prefix, occ, *lit);
    }
}
