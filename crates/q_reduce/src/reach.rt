//! Whether a universal literal is reducible in its clause.
ghost use Rattle.std.specs.Prelude.{◌≡◌, ◌↔◌, ◌<◌, ℕ, true, length, Some, OnOk, IfOk, IsTrue, slice_get};
ghost use Rattle.q_logic.specs.Prelude.{Literal, negation, Clause, IsIn, is_bound, is_existential, is_universal, inner_existential, Within, Reducible, slot, live, others};
ghost use Rattle.q_kernel.specs.Prelude.{slots};
ghost use Rattle.q_rule.specs.Quants.{is_some_exists, is_some_forall};
ghost use Rattle.q_reduce.specs.Walks.{IsWidened, IsFollowed, IsVisited};

use q_kernel::{ClauseId, Kernel};
use q_logic::{Lit, NoMemory, Quant, holds};
use q_rule::{Queue, clause_of, is_inner};

/// Whether no clause that is reached from the clause holds the literal's negation. The walk expands each
/// literal once, and stops at the first such clause. It counts the clauses that it may look at.
pub fn is_reducible(
    kernel: &Kernel,
    queue: &mut Queue,
    c: ClauseId,
    lit: Lit,
    looks: &mut usize,
) -> Result<bool, NoMemory>
    requires live { (C : Clause) × (slot (slots kernel.now) c ≡ Some C) × IsIn lit C
        × (IsIn (negation lit) C → ⊥) }
    requires universal { is_universal kernel.now.prefix lit.var ≡ true }
    ensures { IfOk result (λ yes.
        (C : Clause) → slot (slots kernel.now) c ≡ Some C
        → IsTrue yes ↔ Reducible kernel.now.prefix (others c (slots kernel.now)) C lit) }
{
    queue.clear();
    push_inner(kernel, queue, clause_of(kernel, c), lit)?;
    for head in 0..usize::MAX {
        if head >= queue.len() {
            return Ok(true);
        }
        let next = queue.at(head);
        *looks = looks.saturating_add(kernel.count(next.negated()) as usize);
        if !visit(kernel, queue, next, lit)? {
            return Ok(false);
        }
    }
    // a queue that long has no place in memory
    Err(NoMemory)
}

// Follows the clauses that hold the negation of a literal; whether none that lacks u holds the negation of u. The clause that
// is asked about holds u, so the walk passes it by without knowing it.
fn visit(kernel: &Kernel, queue: &mut Queue, lit: Lit, u: Lit) -> Result<bool, NoMemory>
    requires { is_bound kernel.now.prefix u.var ≡ true }
    ensures { IfOk result (λ yes.
        IsVisited kernel.now.prefix (live (slots kernel.now)) u lit queue.old queue.new yes) }
{
    for d in kernel.holders(lit.negated()) {
        if !follow(kernel, queue, d, u)? {
            return Ok(false);
        }
    }
    Ok(true)
}

// Puts the inner literals of a clause into the queue, unless it holds u; whether it does not hold the negation of u then.
fn follow(kernel: &Kernel, queue: &mut Queue, d: ClauseId, u: Lit) -> Result<bool, NoMemory>
    requires bound { is_bound kernel.now.prefix u.var ≡ true }
    requires live { (D : Clause) × (slot (slots kernel.now) d ≡ Some D) }
    ensures { IfOk result (λ yes.
        IsFollowed kernel.now.prefix (slots kernel.now) u d queue.old queue.new yes) }
{
    let clause = clause_of(kernel, d);
    if holds(clause, u) {
        return Ok(true);
    }
    if holds(clause, u.negated()) {
        return Ok(false);
    }
    push_inner(kernel, queue, clause, u)?;
    Ok(true)
}

/// Puts the literals of the clause that are existential and inner to u into the queue, each once.
#[inline]
pub fn push_inner(
    kernel: &Kernel,
    queue: &mut Queue,
    clause: &[Lit],
    u: Lit,
) -> Result<(), NoMemory>
    requires bound { is_bound kernel.now.prefix u.var ≡ true }
    requires within { Within kernel.now.prefix clause.now }
    ensures { OnOk result (IsWidened kernel.now.prefix u clause.now queue.old queue.new) }
{
    for k in clause {
        if lies_inside(kernel, *k, u) && !queue.has(*k) {
            queue.push(*k)?;
        }
    }
    Ok(())
}

/// Whether k is existential and inner to u.
pub fn lies_inside(kernel: &Kernel, k: Lit, u: Lit) -> bool
    requires { is_bound kernel.now.prefix u.var ≡ true }
    ensures { result ≡ inner_existential kernel.now.prefix u.var k.var }
{
    is_inner(kernel, k.var(), u.var())
}
