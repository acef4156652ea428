//! What the journal notes where two blocks become one.
//!
//! Where the last variable between two blocks of one quantifier goes, the variables of the inner block come into the outer
//! clauses of the literals of the outer one. So the variables of the outer block are noted: all of them, or, where the inner
//! block is smaller, those that share a clause with one of it. Either way it costs no more than the smaller block and its
//! clauses.
ghost use Rattle.std.specs.Prelude.{◌≡◌, ℕ, true, Some};
ghost use Rattle.q_logic.specs.Prelude.{Clause, slot, is_bound};
ghost use Rattle.q_kernel.specs.Kernels.{slots};
ghost use Rattle.q_kernel.specs.declared.joining.Seam.{Seam as SeamValue};

use crate::journal::Touch;
use crate::kernel::Kernel;
use q_arena::ClauseId;
use q_logic::Lit;
use q_prefix::Prefix;

// The variable before one, where both are of one block.
fn mate_before(prefix: &Prefix, var: u32) -> Option<u32>
    requires { is_bound prefix.now.bounds var ≡ true }
    ensures { (w : ℕ) → result ≡ Some w → is_bound prefix.now.bounds w ≡ true }
{
    match prefix.before(var) {
        Some(before) if prefix.outer_or_same(var, before.var) => Some(before.var),
        _ => None,
    }
}

// The variable after one, where both are of one block.
fn mate_after(prefix: &Prefix, var: u32) -> Option<u32>
    requires { is_bound prefix.now.bounds var ≡ true }
    ensures { (w : ℕ) → result ≡ Some w → is_bound prefix.now.bounds w ≡ true }
{
    match prefix.after(var) {
        Some(after) if prefix.outer_or_same(after.var, var) => Some(after.var),
        _ => None,
    }
}

// Two blocks of one quantifier, by the last variable of the outer one and the first of the inner one.
#[derive(Clone, Copy)]
struct Seam {
    last: u32,
    first: u32,
}

// Where two blocks become one once a variable goes.
fn seam_at(prefix: &Prefix, var: u32) -> Option<Seam>
    requires { is_bound prefix.now.bounds var ≡ true }
    ensures last { (s : SeamValue) → result ≡ Some s → is_bound prefix.now.bounds s.last ≡ true }
    ensures first { (s : SeamValue) → result ≡ Some s → is_bound prefix.now.bounds s.first ≡ true }
{
    let Some(before) = prefix.before(var) else {
        return None;
    };
    let Some(after) = prefix.after(var) else {
        return None;
    };
    if before.quant != after.quant || prefix.outer_or_same(after.var, before.var) {
        return None;
    }
    Some(Seam {
        last: before.var,
        first: after.var,
    })
}

// Whether the outer block is no larger. One walk goes back and one on, in step, up to the end of the smaller block.
fn is_outer_smaller(prefix: &Prefix, seam: Seam) -> bool
    requires last { is_bound prefix.now.bounds seam.last ≡ true }
    requires first { is_bound prefix.now.bounds seam.first ≡ true }
{
    let mut outer = seam.last;
    let mut inner = seam.first;
    for _ in 0..prefix.len() {
        let Some(before) = mate_before(prefix, outer) else {
            return true;
        };
        let Some(after) = mate_after(prefix, inner) else {
            return false;
        };
        outer = before;
        inner = after;
    }
    true
}

// Notes the variables of a block, from its last one back.
fn note_block(kernel: &mut Kernel, last: u32)
    requires { is_bound kernel.old.prefix last ≡ true }
    ensures { kernel.new ≡ kernel.old }
{
    let mut at = Some(last);
    for _ in 0..kernel.prefix().len() {
        let Some(var) = at else { return };
        kernel.note(Touch::Variable(var));
        at = mate_before(kernel.prefix(), var);
    }
}

// Notes a variable if it is of the block of another one.
fn note_mate(kernel: &mut Kernel, var: u32, last: u32)
    requires { is_bound kernel.old.prefix last ≡ true }
    ensures { kernel.new ≡ kernel.old }
{
    let prefix = kernel.prefix();
    if !prefix.contains(var) || !prefix.outer_or_same(var, last) {
        return;
    }
    if prefix.outer_or_same(last, var) {
        kernel.note(Touch::Variable(var));
    }
}

// Notes the variables of a clause that are of a block.
fn note_clause(kernel: &mut Kernel, id: ClauseId, last: u32)
    requires live { (C : Clause) × (slot (slots kernel.old) id ≡ Some C) }
    requires last { is_bound kernel.old.prefix last ≡ true }
    ensures { kernel.new ≡ kernel.old }
{
    for place in 0..kernel.lits(id).len() {
        let lits = kernel.lits(id);
        if place < lits.len() {
            let var = lits[place].var();
            note_mate(kernel, var, last);
        }
    }
}

// Notes the variables of a block in the clauses with a literal.
fn note_beside(kernel: &mut Kernel, lit: Lit, last: u32)
    requires { is_bound kernel.old.prefix last ≡ true }
    ensures { kernel.new ≡ kernel.old }
{
    let mut at = kernel.first(lit);
    for _ in 0..kernel.count(lit) {
        let Some(place) = at else { return };
        let id = kernel.owner(place);
        note_clause(kernel, id, last);
        at = kernel.next(place);
    }
}

// Notes the variables of the outer block that share a clause with one of the inner block.
fn note_sharing(kernel: &mut Kernel, seam: Seam)
    requires last { is_bound kernel.old.prefix seam.last ≡ true }
    requires first { is_bound kernel.old.prefix seam.first ≡ true }
    ensures { kernel.new ≡ kernel.old }
{
    let mut at = Some(seam.first);
    for _ in 0..kernel.prefix().len() {
        let Some(var) = at else { return };
        kernel.sound();
        note_beside(kernel, Lit::new(var, true), seam.last);
        note_beside(kernel, Lit::new(var, false), seam.last);
        at = mate_after(kernel.prefix(), var);
    }
}

/// Notes what changes where the removal of a variable makes one block of two.
pub(crate) fn note_joining(kernel: &mut Kernel, var: u32)
    requires { is_bound kernel.old.prefix var ≡ true }
    ensures { kernel.new ≡ kernel.old }
{
    let Some(seam) = seam_at(kernel.prefix(), var) else {
        return;
    };
    if is_outer_smaller(kernel.prefix(), seam) {
        note_block(kernel, seam.last);
    } else {
        note_sharing(kernel, seam);
    }
}
