//! Whether the proof part of a step shows that the step is valid. Its hints are followed one by one, and nothing is
//! searched; the clauses that its groups are for must be all that hold the negated literal, by ascending numbers.
ghost use Rattle.std.specs.Prelude.{◌≡◌, ◌↔◌, true, map, IfOk, IsTrue};
ghost use Rattle.q_logic.specs.Prelude.{IsIn, Resolved, Shows, ShowsImplied, ShowsPivot, ShowsForall, slot, without, is_bound, is_universal, IsFirst, Within};
ghost use Rattle.q_check.specs.HintChecks.{IsDropJudged};
ghost use Rattle.q_check.specs.Numbers.{left_out};

use crate::named::{Cut, Named, Sides};
use crate::numbered::NumberedBook;
use q_judge::{Cause, CheckError};
use q_logic::{Lit, NoMemory, Proof, ProofKind, holds};

/// Whether the proof shows why the clause may come, or why the one with a number may go.
pub fn shows(
    book: &mut NumberedBook,
    targets: &mut Vec<u64>,
    skip: Option<usize>,
    named: &Named,
    proof: &Proof,
) -> Result<bool, NoMemory>
    requires within { Within book.old.prefix named.now.clause.now }
    requires first { IsFirst named.now.first named.now.clause.now }
    ensures same { book.new ≡ book.old }
    ensures exact { IfOk result (λ yes. IsTrue yes
        ↔ Shows book.old.prefix (left_out skip book.old.slots)
        named.now.clause.now named.now.first proof.now) }
{
    match proof.kind() {
        ProofKind::Implied => shows_implied(book, skip, named.clause, proof),
        ProofKind::Pivot => shows_pivot(book, targets, skip, named, proof),
        ProofKind::Nothing | ProofKind::Reach => Ok(false),
    }
}

// Whether the only group of the proof shows that the clause is implied.
fn shows_implied(
    book: &mut NumberedBook,
    skip: Option<usize>,
    clause: &[Lit],
    proof: &Proof,
) -> Result<bool, NoMemory>
    ensures same { book.new ≡ book.old }
    ensures exact { IfOk result (λ yes. IsTrue yes
        ↔ ShowsImplied (left_out skip book.old.slots) clause.now proof.now.groups) }
{
    if proof.groups() != 1 {
        return Ok(false);
    }
    if proof.target(0) != 0 {
        return Ok(false);
    }
    book.chained(clause, skip, proof.hints(0))
}

// Whether the proof shows that the first literal is an existential pivot.
fn shows_pivot(
    book: &mut NumberedBook,
    targets: &mut Vec<u64>,
    skip: Option<usize>,
    named: &Named,
    proof: &Proof,
) -> Result<bool, NoMemory>
    requires within { Within book.old.prefix named.now.clause.now }
    requires first { IsFirst named.now.first named.now.clause.now }
    ensures same { book.new ≡ book.old }
    ensures exact { IfOk result (λ yes. IsTrue yes
        ↔ ShowsPivot book.old.prefix (left_out skip book.old.slots)
        named.now.clause.now named.now.first proof.now.groups) }
{
    let Some(pivot) = named.first else {
        return Ok(false);
    };
    if !book.scope().is_existential(pivot.var()) {
        return Ok(false);
    }
    let sides = Sides {
        base: named.clause,
        m: pivot.negated(),
        skip,
    };
    resolved(book, targets, &sides, proof)
}

/// Judges whether the clause with a number may lose a literal as the proof shows.
pub fn judge_drop(
    book: &mut NumberedBook,
    targets: &mut Vec<u64>,
    number: usize,
    cut: &Cut,
    proof: &Proof,
) -> Result<(), CheckError>
    requires there { slot book.old.slots number ≡ Some cut.now.clause.now }
    requires within { Within book.old.prefix cut.now.clause.now }
    requires held { IsIn cut.now.lit cut.now.clause.now }
    requires rest { cut.now.rest.now ≡ without cut.now.lit cut.now.clause.now }
    ensures same { book.new ≡ book.old }
    ensures judged { IsDropJudged book.old.prefix (left_out (Some number) book.old.slots)
        cut.now.clause.now cut.now.lit proof.now result }
{
    if !book.scope().is_universal(cut.lit.var()) {
        return Err(Cause::NotDroppable.refusal());
    }
    match proof.kind() {
        ProofKind::Pivot => {
            if !shows_forall(book, targets, number, cut, proof)? {
                return Err(Cause::BadHint.refusal());
            }
            Ok(())
        }
        ProofKind::Reach => {
            if !book.is_reducible(number, cut.clause, cut.lit)? {
                return Err(Cause::NotDroppable.refusal());
            }
            Ok(())
        }
        ProofKind::Nothing | ProofKind::Implied => Err(Cause::BadHint.refusal()),
    }
}

// Whether the proof shows that the literal is a universal pivot.
fn shows_forall(
    book: &mut NumberedBook,
    targets: &mut Vec<u64>,
    number: usize,
    cut: &Cut,
    proof: &Proof,
) -> Result<bool, NoMemory>
    requires universal { is_universal book.old.prefix cut.now.lit.var ≡ true }
    requires bound { is_bound book.old.prefix cut.now.lit.var ≡ true }
    requires held { IsIn cut.now.lit cut.now.clause.now }
    requires rest { cut.now.rest.now ≡ without cut.now.lit cut.now.clause.now }
    ensures same { book.new ≡ book.old }
    ensures exact { IfOk result (λ yes. IsTrue yes
        ↔ ShowsForall book.old.prefix (left_out (Some number) book.old.slots)
        cut.now.clause.now cut.now.lit proof.now.groups) }
{
    if holds(cut.clause, cut.lit.negated()) {
        return Ok(false);
    }
    let sides = Sides {
        base: cut.rest,
        m: cut.lit.negated(),
        skip: Some(number),
    };
    resolved(book, targets, &sides, proof)
}

// Whether the groups of the proof are for all clauses that hold m, and the hints of each show the literals joined with
// the outer clause.
fn resolved(
    book: &mut NumberedBook,
    targets: &mut Vec<u64>,
    sides: &Sides,
    proof: &Proof,
) -> Result<bool, NoMemory>
    requires { is_bound book.old.prefix sides.now.m.var ≡ true }
    ensures same { book.new ≡ book.old }
    ensures exact { IfOk result (λ yes. IsTrue yes
        ↔ Resolved book.old.prefix (left_out sides.now.skip book.old.slots)
        sides.now.base.now sides.now.m proof.now.groups) }
{
    book.holding(sides.m, sides.skip, targets)?;
    if !are_targets(targets, proof) {
        return Ok(false);
    }
    for at in 0..proof.groups() {
        if !book.chained_with(proof.target(at) as usize, sides, proof.hints(at))? {
            return Ok(false);
        }
    }
    Ok(true)
}

// Whether the groups are for these clauses, in this order.
fn are_targets(targets: &[u64], proof: &Proof) -> bool
    ensures { IsTrue result ↔ (map (λ g. g.target) proof.now.groups ≡ targets.now) }
{
    if proof.groups() != targets.len() {
        return false;
    }
    for at in 0..targets.len() {
        if proof.target(at) != targets[at] {
            return false;
        }
    }
    true
}
