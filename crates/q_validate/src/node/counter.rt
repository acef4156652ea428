//! The values of the universals at a node where some clause is false.
ghost use Rattle.std.specs.Prelude.{◌≡◌, ◌<◌, ◌≤◌, ◌++◌, ◌∷◌, ◌^◌, [], cond, false, IfOk, OnOk, slice_index_or};
ghost use Rattle.q_logic.specs.Branches.{is_input, true_literals, counter_at, first_false as first_false_spec, denial as denial_spec, is_false as is_false_spec};
ghost use Rattle.q_validate.specs.Lines.{Follows};
ghost use Rattle.q_validate.specs.Stands.{claim_at, clause_along, node_of, values, IsRow};

use crate::known::fill;
use crate::line::Since;
use crate::node::Node;
use q_logic::{Bound, Lit, Lits, NoMemory, Quant, Verdict};
use std::alloc::Global;

// The value that makes the literal of a variable false.
fn denial(clause: &[Lit], var: u32) -> bool
    ensures { result ≡ denial_spec clause.now var }
{
    for lit in clause {
        if lit.var() == var {
            return lit.negative();
        }
    }
    false
}

fn value_or_zero(path: &[bool], place: usize) -> bool
    ensures { result ≡ slice_index_or path.now place false }
{
    if place < path.len() {
        path[place]
    } else {
        false
    }
}

fn is_lost(verdict: Verdict) -> bool
    ensures { result ≡ is_false_spec verdict }
{
    match verdict {
        Verdict::Lost => true,
        Verdict::Won | Verdict::Open => false,
    }
}

impl<'a> Node<'a> {
    // Whether a clause is false at the node itself.
    fn is_false(&self, row: &[Since], clause: &[Lit]) -> bool
        requires { IsRow Follows self.now.certificate self.now.path row.now }
        ensures { result ≡ is_false_spec (clause_along (claim_at self.now) self.now.path
            clause.now) }
    {
        let known: Since = self.clause_known(&self.path, row, clause);
        is_lost(known.at(0))
    }

    // The first false clause, or the empty one.
    fn first_false(&self, row: &[Since]) -> &[Lit]
        requires { IsRow Follows self.now.certificate self.now.path row.now }
        ensures { result.now ≡ first_false_spec (claim_at self.now)
            (node_of self.now) self.now.formula.matrix }
    {
        for i in 0..self.formula.clauses() {
            let clause = self.formula.clause(i);
            if self.is_false(row, clause) {
                return clause;
            }
        }
        &[]
    }

    // The value of a universal: as an input, or so that the clause is false.
    fn counter_value(&self, clause: &[Lit], var: u32) -> bool
        ensures { result ≡ cond (is_input (claim_at self.now) var)
            (values self.now.certificate.inputs self.now.path var) (denial_spec clause.now var) }
    {
        match self.place(var) {
            Some(place) => value_or_zero(&self.path, place),
            None => denial(clause, var),
        }
    }

    // Puts the literal that is true, if the variable is universal.
    fn push_value(&self, lits: &mut Lits, clause: &[Lit], bound: Bound) -> Result<(), NoMemory>
        requires positive { 1 ≤ bound.var }
        requires small { bound.var < 2 ^ 31 }
        ensures { OnOk result (lits.new ≡ lits.old ++ true_literals (bound ∷ [])
            (λ v. cond (is_input (claim_at self.now) v)
            (values self.now.certificate.inputs self.now.path v) (denial_spec clause.now v))) }
    {
        match bound.quant {
            Quant::Exists => Ok(()),
            Quant::Forall => {
                let value = self.counter_value(clause, bound.var);
                lits.push(Lit::new(bound.var, !value))
            }
        }
    }

    /// The literals of the universals that are true where the first false clause is false.
    pub fn counter(&self, alloc: Global) -> Result<Lits, NoMemory>
        ensures { IfOk result (λ lits. lits ≡ true_literals self.now.formula.prefix
            (counter_at (claim_at self.now) (node_of self.now))) }
    {
        let mut row = Vec::new(alloc);
        fill(self.certificate.aig(), &self.path, &mut row)?;
        let clause = self.first_false(&row);
        let mut lits = Lits::new(alloc);
        for bound in self.formula.prefix() {
            self.push_value(&mut lits, clause, *bound)?;
        }
        Ok(lits)
    }
}
