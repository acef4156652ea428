//! What it takes to put another literal in the place of one. Words and ids are those of the clauses with the variable, by a
//! walk along their two lists; log bytes are bounded by the formula's size, since the kernel keeps that room.
ghost use Rattle.std.specs.Prelude.{◌≡◌, ◌≤◌, ◌+◌, length, OnOk, IfOk, vec_capacity};
ghost use Rattle.q_logic.specs.Prelude.{negation, standard, IsInLimits, live, with_literal, literals_in};
ghost use Rattle.q_kernel.specs.Prelude.{slots, formula_in, SameView};
ghost use Rattle.q_equiv.specs.Changing.{total_with, HasRoomFor};

use q_kernel::{Kernel, Need};
use q_logic::{Lit, NoMemory};

// More clauses have no ids.
const MOST_IDS: usize = 4_294_967_294;

/// Reserves what it takes to put another literal in the place of one: words and ids for its clauses, bytes for their
/// steps and the sweep, and room in the buffer for any of them.
pub fn reserve(kernel: &mut Kernel, buffer: &mut Vec<Lit>, gone: Lit) -> Result<(), NoMemory>
    requires { IsInLimits standard (formula_in kernel.old) }
    ensures view { SameView kernel.old kernel.new }
    ensures room { OnOk result (HasRoomFor kernel.new gone.var) }
    ensures buffer { OnOk result
        (total_with length gone.var (live (slots kernel.new)) + 8 ≤ vec_capacity buffer.new) }
{
    kernel.sound();
    let words = weigh_both(kernel, gone)?;
    let ids = kernel.count(gone) as usize + kernel.count(gone.negated()) as usize + 4;
    if kernel.clauses() + ids > MOST_IDS {
        return Err(NoMemory);
    }
    buffer.clear();
    buffer.reserve(words)?;
    let log_bytes = 16 * (3 * kernel.size() + kernel.prefix().len()) + 384;
    kernel.reserve(Need {
        words,
        ids,
        vars: 0,
        greatest: 0,
        log_bytes,
    })?;
    Ok(())
}

// The literals of the clauses with a literal or its negation, and eight more.
fn weigh_both(kernel: &Kernel, lit: Lit) -> Result<usize, NoMemory>
    ensures { IfOk result (λ n.
        literals_in (with_literal lit (live (slots kernel.now)))
        + literals_in (with_literal (negation lit) (live (slots kernel.now))) + 8 ≤ n) }
{
    let here = weigh(kernel, lit)?;
    let there = weigh(kernel, lit.negated())?;
    let both = sum(here, there)?;
    sum(both, 8)
}

// The literals of the clauses with a literal.
fn weigh(kernel: &Kernel, lit: Lit) -> Result<usize, NoMemory>
    ensures { IfOk result (λ n. literals_in (with_literal lit (live (slots kernel.now))) ≤ n) }
{
    let mut words = 0;
    for id in kernel.holders(lit) {
        words = sum(words, kernel.lits(id).len())?;
    }
    Ok(words)
}

// So many words have no place in memory where the sum is out of range.
fn sum(a: usize, b: usize) -> Result<usize, NoMemory>
    ensures { IfOk result (λ n. n ≡ a + b) }
{
    a.checked_add(b).ok_or(NoMemory)
}
