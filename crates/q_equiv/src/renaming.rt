//! Clauses in which a literal takes the place of another one. They are built in a buffer whose room was reserved before the
//! first step, so no step can fail.
ghost use Rattle.std.specs.Prelude.{◌≡◌, ◌≤◌, map, length, vec_capacity};
ghost use Rattle.q_logic.specs.Prelude.{renamed, renamed_literal};

use q_logic::Lit;

/// The literal that comes in the place of a literal where keep takes the place of gone.
pub fn renamed_lit(lit: Lit, keep: Lit, gone: Lit) -> Lit
    ensures { result ≡ renamed_literal keep gone lit }
{
    if lit.is(gone) {
        keep
    } else if lit.is(gone.negated()) {
        keep.negated()
    } else {
        lit
    }
}

/// Makes the buffer the clause in which keep takes the place of gone. It needs no memory.
pub fn rename(buffer: &mut Vec<Lit>, clause: &[Lit], keep: Lit, gone: Lit)
    requires { length clause.now ≤ vec_capacity buffer.old }
    ensures clause { buffer.new.items ≡ renamed keep gone clause.now }
    ensures capacity { vec_capacity buffer.old ≤ vec_capacity buffer.new }
{
    rename_each(buffer, clause, keep, gone);
    buffer.sort_unstable();
    buffer.dedup();
}

// The literals of the clause, each renamed, in their order.
fn rename_each(buffer: &mut Vec<Lit>, clause: &[Lit], keep: Lit, gone: Lit)
    requires { length clause.now ≤ vec_capacity buffer.old }
    ensures lits { buffer.new.items ≡ map (renamed_literal keep gone) clause.now }
    ensures capacity { vec_capacity buffer.old ≤ vec_capacity buffer.new }
{
    buffer.clear();
    for lit in clause {
        let _ = buffer.push(renamed_lit(*lit, keep, gone));
    }
}
