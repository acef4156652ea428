//! What is known of clauses at a node and at those of a shape below it, by the row of gates.
ghost use Rattle.std.specs.Prelude.{◌≡◌, ◌<◌, ◌+◌, ◌++◌, ◌||◌, drop, length, false};
ghost use Rattle.q_logic.specs.Prelude.{is_existential};
ghost use Rattle.q_logic.specs.Branches.{known_signed, is_missing as is_missing_spec, both_missing as both_missing_spec};
ghost use Rattle.q_aig.specs.Prelude.{IsLiteral, tree_at, net_of};
ghost use Rattle.q_validate.specs.Below.{known_literals};
ghost use Rattle.q_validate.specs.Stands.{claim_at, unset, values, known_along, literal_along, clause_known as clause_along, formula_known as formula_along, IsRow};

use crate::below::Below;
use crate::known::{input_known, literal_known};
use crate::node::Node;
use q_certificate::look;
use q_logic::{Lit, holds};

impl<'a> Node<'a> {
    // What is known of a literal that has no circuit: one of no input counts as 0.
    fn input_literal<T: Below>(&self, path: &[bool], lit: Lit) -> T
        requires { is_existential self.now.formula.prefix lit.var ≡ false }
        ensures { T.Says result (λ w. literal_along (claim_at self.now) (path.now ++ w) lit) }
    {
        match self.place(lit.var()) {
            Some(place) => input_known::<T>(path, place).signed(lit.negative()),
            None => T::value(false),
        }
    }

    // What is known of a literal by its circuit.
    fn circuit_literal<T: Below>(&self, path: &[bool], row: &[T], lit: Lit, circuit: u64) -> T
        requires row { IsRow T.Says self.now.certificate path.now row.now }
        requires there { IsLiteral (net_of self.now.certificate) circuit }
        ensures { T.Says result (λ w. known_signed lit.negative
            (known_along self.now.certificate.inputs (path.now ++ w)
            (tree_at (net_of self.now.certificate) circuit))) }
    {
        literal_known(self.certificate.aig(), path, row, circuit).signed(lit.negative())
    }

    fn literal<T: Below>(&self, path: &[bool], row: &[T], lit: Lit) -> T
        requires { IsRow T.Says self.now.certificate path.now row.now }
        ensures { T.Says result (λ w. literal_along (claim_at self.now) (path.now ++ w) lit) }
    {
        match look(&self.circuits, lit.var()) {
            Some(circuit) => self.circuit_literal(path, row, lit, circuit),
            None => self.input_literal(path, lit),
        }
    }

    // The literals of a clause, taken together.
    fn literals<T: Below>(&self, path: &[bool], row: &[T], clause: &[Lit]) -> T
        requires { IsRow T.Says self.now.certificate path.now row.now }
        ensures { T.Says result (λ w. known_literals (claim_at self.now)
            (unset self.now.certificate.inputs (path.now ++ w))
            (values self.now.certificate.inputs (path.now ++ w)) clause.now) }
    {
        let mut all = T::value(false);
        for lit in clause {
            all = all.or(self.literal(path, row, *lit));
        }
        all
    }

    // Whether the variable is a universal that is no input.
    fn is_missing(&self, lit: Lit) -> bool
        ensures { result ≡ is_missing_spec (claim_at self.now) lit.var }
    {
        match look(&self.circuits, lit.var()) {
            Some(_) => false,
            None => self.place(lit.var()).is_none(),
        }
    }

    // Whether the literal at a place is missing, and a later one is its negation.
    fn repeats(&self, clause: &[Lit], at: usize) -> bool
        requires { at < length clause.now }
        ensures { both_missing_spec (claim_at self.now) (drop at clause.now)
            ≡ (result || both_missing_spec (claim_at self.now) (drop (at + 1) clause.now)) }
    {
        let lit = clause[at];
        let later = &clause[at + 1..];
        self.is_missing(lit) && holds(later, lit.negated())
    }

    fn both_missing(&self, clause: &[Lit]) -> bool
        ensures { result ≡ both_missing_spec (claim_at self.now) clause.now }
    {
        for i in 0..clause.len() {
            if self.repeats(clause, i) {
                return true;
            }
        }
        false
    }

    /// What is known of a clause.
    pub fn clause_known<T: Below>(&self, path: &[bool], row: &[T], clause: &[Lit]) -> T
        requires { IsRow T.Says self.now.certificate path.now row.now }
        ensures { T.Says result (λ w. clause_along (claim_at self.now) (path.now ++ w) clause.now) }
    {
        if self.both_missing(clause) {
            return T::value(true);
        }
        self.literals(path, row, clause)
    }

    /// What is known of the formula.
    pub fn formula_known<T: Below>(&self, path: &[bool], row: &[T]) -> T
        requires { IsRow T.Says self.now.certificate path.now row.now }
        ensures { T.Says result (λ w. formula_along (claim_at self.now) (path.now ++ w)) }
    {
        let mut all = T::value(true);
        for i in 0..self.formula.clauses() {
            all = all.and(self.clause_known(path, row, self.formula.clause(i)));
        }
        all
    }
}
