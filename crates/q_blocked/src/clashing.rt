//! Clauses that clash with a set of literals.
ghost use Rattle.std.specs.Prelude.{◌≡◌, ◌↔◌, true, OnOk, IsTrue};
ghost use Rattle.q_logic.specs.Prelude.{negation, Clause, IsIn, is_bound, keeps, Within, others};
ghost use Rattle.q_logic.specs.Blocking.{Clashes, AllClash};
ghost use Rattle.q_kernel.specs.Prelude.{slots, HoldsLiteral};
ghost use Rattle.q_blocked.specs.Walks.{ClashesAt};

use q_kernel::{ClauseId, Kernel};
use q_logic::{Lit, NoMemory};
use q_rule::{Queue, clause_of};

/// Makes the set that of the literals of a clause.
#[inline]
pub fn fill(set: &mut Queue, clause: &[Lit]) -> Result<(), NoMemory>
    ensures { OnOk result (set.new ≡ clause.now) }
{
    set.clear();
    for k in clause {
        set.push(*k)?;
    }
    Ok(())
}

/// Whether k is in the outer clause, on the literal m, of a clause that holds it.
pub fn is_kept(kernel: &Kernel, m: Lit, k: Lit) -> bool
    requires here { is_bound kernel.now.prefix m.var ≡ true }
    requires there { is_bound kernel.now.prefix k.var ≡ true }
    ensures { result ≡ keeps kernel.now.prefix m k }
{
    !k.is(m) && kernel.prefix().outer_or_same(k.var(), m.var())
}

/// Whether the literal k of a clause is in its outer clause on m, and not in the set.
pub fn is_fresh(kernel: &Kernel, set: &Queue, m: Lit, k: Lit) -> bool
    requires here { is_bound kernel.now.prefix m.var ≡ true }
    requires there { is_bound kernel.now.prefix k.var ≡ true }
    ensures { IsTrue result ↔ ((keeps kernel.now.prefix m k ≡ true) × (IsIn k set.now → ⊥)) }
{
    !set.has(k) && is_kept(kernel, m, k)
}

// Whether the literal k of a clause is in its outer clause on m, and its negation in the set. The marks of the set are
// asked first: they cost less, and mostly answer no.
fn hits(kernel: &Kernel, set: &Queue, m: Lit, k: Lit) -> bool
    requires here { is_bound kernel.now.prefix m.var ≡ true }
    requires there { is_bound kernel.now.prefix k.var ≡ true }
    ensures { IsTrue result ↔ ((keeps kernel.now.prefix m k ≡ true) × IsIn (negation k) set.now) }
{
    set.has(k.negated()) && is_kept(kernel, m, k)
}

/// Whether a clause clashes with the set on a literal whose negation it holds.
#[inline]
pub fn clashes(kernel: &Kernel, set: &Queue, clause: &[Lit], l: Lit) -> bool
    requires within { Within kernel.now.prefix clause.now }
    requires bound { is_bound kernel.now.prefix l.var ≡ true }
    ensures { IsTrue result ↔ Clashes kernel.now.prefix l set.now clause.now }
{
    let m = l.negated();
    for k in clause {
        if hits(kernel, set, m, *k) {
            return true;
        }
    }
    false
}

// The same for the clause of an id. Of the clause c itself nothing is asked.
fn passes(kernel: &Kernel, set: &Queue, c: ClauseId, d: ClauseId, l: Lit) -> bool
    requires { HoldsLiteral kernel.now d (negation l) }
    ensures { IsTrue result ↔ ClashesAt kernel.now.prefix (slots kernel.now) c l set.now d }
{
    if d == c {
        return true;
    }
    clashes(kernel, set, clause_of(kernel, d), l)
}

/// Whether each clause but c that holds the negation of a literal clashes with the set on it. It stops at the first
/// one that does not.
#[inline]
pub fn all_clash(kernel: &Kernel, set: &Queue, c: ClauseId, l: Lit) -> bool
    ensures { IsTrue result ↔ AllClash kernel.now.prefix (others c (slots kernel.now)) l set.now }
{
    for d in kernel.holders(l.negated()) {
        if !passes(kernel, set, c, d, l) {
            return false;
        }
    }
    true
}
