//! Covered literals: what the outer parts of all clauses with the negation of a literal, on which the set may be blocked,
//! have in common.
ghost use Rattle.std.specs.Prelude.{◌≡◌, ◌↔◌, ◌++◌, ◌∷◌, [], true, false, cond, OnOk, IfOk, IsTrue};
ghost use Rattle.q_logic.specs.Prelude.{Literal, negation, IsIn, is_bound, keeps, Within, others};
ghost use Rattle.q_kernel.specs.Prelude.{slots, HoldsLiteral};
ghost use Rattle.q_blocked.specs.Walks.{IsNarrowed, IsLooked};

use crate::clashing::{clashes, fill, is_fresh};
use crate::pairs::{NO_PAIR, Pair};
use q_kernel::{ClauseId, Kernel};
use q_logic::{Lit, NoMemory, holds};
use q_rule::{Queue, clause_of};
use std::alloc::Global;

// So many literals are looked for in a clause one by one.
const FEW: usize = 4;

/// Room for the covered literals that are left beside one more clause; the first clause and the last one that were
/// taken into account.
#[derive(Drop)]
pub struct Spare {
    pub lits: Vec<Lit>,
    pub marks: Queue,
    pub pair: Pair,
}

impl Spare {
    pub fn new(alloc: Global) -> Spare
        ensures lits { result.lits.items ≡ [] }
        ensures marks { result.marks ≡ [] }
    {
        Spare {
            lits: Vec::new(alloc),
            marks: Queue::new(alloc),
            pair: NO_PAIR,
        }
    }
}

fn put_if(lits: &mut Vec<Lit>, k: Lit, wanted: bool) -> Result<(), NoMemory>
    ensures { OnOk result (lits.new.items ≡ cond wanted (lits.old.items ++ k ∷ []) lits.old.items) }
{
    if wanted {
        lits.push(k)?;
    }
    Ok(())
}

// The literals of the outer clause that are not in the set.
fn begin(
    kernel: &Kernel,
    set: &Queue,
    clause: &[Lit],
    m: Lit,
    found: &mut Vec<Lit>,
) -> Result<(), NoMemory>
    requires within { Within kernel.now.prefix clause.now }
    requires bound { is_bound kernel.now.prefix m.var ≡ true }
    ensures { OnOk result ((k : Literal)
        → IsIn k found.new.items
        ↔ (IsIn k clause.now × (keeps kernel.now.prefix m k ≡ true) × (IsIn k set.now → ⊥))) }
{
    found.clear();
    for k in clause {
        put_if(found, *k, is_fresh(kernel, set, m, *k))?;
    }
    Ok(())
}

// The literals that are in the clause too.
fn sift(old: &[Lit], clause: &[Lit], kept: &mut Vec<Lit>) -> Result<(), NoMemory>
    ensures { OnOk result ((k : Literal)
        → IsIn k kept.new.items ↔ (IsIn k old.now × IsIn k clause.now)) }
{
    kept.clear();
    for k in old {
        put_if(kept, *k, holds(clause, *k))?;
    }
    Ok(())
}

// The same by marks: one walk over the clause for all literals.
fn sift_marked(
    old: &[Lit],
    clause: &[Lit],
    marks: &mut Queue,
    kept: &mut Vec<Lit>,
) -> Result<(), NoMemory>
    ensures { OnOk result ((k : Literal)
        → IsIn k kept.new.items ↔ (IsIn k old.now × IsIn k clause.now)) }
{
    fill(marks, clause)?;
    kept.clear();
    for k in old {
        put_if(kept, *k, marks.has(*k))?;
    }
    Ok(())
}

// The same, by the way that costs less.
fn meet(old: &[Lit], clause: &[Lit], spare: &mut Spare) -> Result<(), NoMemory>
    ensures { OnOk result ((k : Literal)
        → IsIn k spare.new.lits.items ↔ (IsIn k old.now × IsIn k clause.now)) }
{
    if old.len() < FEW {
        return sift(old, clause, &mut spare.lits);
    }
    sift_marked(old, clause, &mut spare.marks, &mut spare.lits)
}

fn keep(found: &mut Vec<Lit>, clause: &[Lit], spare: &mut Spare) -> Result<(), NoMemory>
    ensures { OnOk result ((k : Literal)
        → IsIn k found.new.items ↔ (IsIn k found.old.items × IsIn k clause.now)) }
{
    meet(found, clause, spare)?;
    std::mem::swap(found, &mut spare.lits);
    Ok(())
}

// Takes a clause with the negation of l into account; whether some clause was open.
fn narrow(
    kernel: &Kernel,
    set: &Queue,
    found: &mut Vec<Lit>,
    spare: &mut Spare,
    c: ClauseId,
    d: ClauseId,
    l: Lit,
    was: bool,
) -> Result<bool, NoMemory>
    requires { HoldsLiteral kernel.now d (negation l) }
    ensures { IfOk result (λ yes.
        IsNarrowed kernel.now.prefix (slots kernel.now) c d l set.now was found.old.items yes
        found.new.items) }
{
    if d == c {
        return Ok(was);
    }
    let clause = clause_of(kernel, d);
    if clashes(kernel, set, clause, l) {
        return Ok(was);
    }
    spare.pair.second = d;
    if was {
        keep(found, clause, spare)?;
        return Ok(true);
    }
    spare.pair.first = d;
    begin(kernel, set, clause, l.negated(), found)?;
    Ok(true)
}

/// Whether some clause with the negation of l is open; the covered literals that are not in the set then.
// Hot where the two clauses that were noted do not show that nothing comes: each open clause costs a walk
// over what is left. It stops once nothing is. What clashed once goes on clashing while the set grows, so a place in the list
// could be kept for each literal; that was not tried.
pub fn covered_at(
    kernel: &Kernel,
    set: &Queue,
    found: &mut Vec<Lit>,
    spare: &mut Spare,
    c: ClauseId,
    l: Lit,
) -> Result<bool, NoMemory>
    ensures { IfOk result (λ yes.
        IsLooked kernel.now.prefix (others c (slots kernel.now)) l set.now found.new.items yes) }
{
    let mut met = false;
    for d in kernel.holders(l.negated()) {
        met = narrow(kernel, set, found, spare, c, d, l, met)?;
        if met && is_bare(found) {
            return Ok(true);
        }
    }
    Ok(met)
}

/// Whether there is no literal.
pub fn is_bare(lits: &[Lit]) -> bool
    ensures none { result ≡ true → (k : Literal) → IsIn k lits.now → ⊥ }
    ensures some { result ≡ false → (k : Literal) × IsIn k lits.now }
{
    lits.is_empty()
}
