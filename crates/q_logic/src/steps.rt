// Steps of a proof as values. The first literal of a clause is its pivot, so it stays in front; the others stand in literal order,
// so that one clause with one pivot is one value.
ghost use Rattle.std.specs.Prelude.{◌≡◌, ◌<◌, length, slice_index_or, List, [], ◌∷◌};
ghost use Rattle.q_logic.specs.Formulas.{IsIn};
ghost use Rattle.q_logic.specs.Literals.{IsBelow};
ghost use Rattle.q_logic.specs.Parts.{ArePairs};
ghost use Rattle.q_logic.specs.Pivots.{without};
ghost use Rattle.q_logic.specs.StepForms.{IsStepForm, IsStep, step_of, kind_of, literals_of, arranged};

use crate::literals::Lit;
use crate::lits::{Lits, sort_clause};
use std::marker::Model;

#[derive(Clone, Copy, Debug, PartialEq, Eq)]
pub enum Kind {
    Add,
    Delete,
    Drop,
    Fresh,
    Remove,
}

/// A step of a proof. The first literal of a clause is its pivot; the others stand in literal order.
#[derive(Drop)]
pub struct Step {
    kind: Kind,
    lits: Lits,
}

impl Model for Step {
    ghost use Rattle.q_logic.specs.Steps.{ProofStep};
    ghost use Rattle.q_logic.specs.Literals.{IsBelow};
    ghost use Rattle.q_logic.specs.Parts.{ArePairs};
    ghost use Rattle.q_logic.specs.Pivots.{without};
    ghost use Rattle.q_logic.specs.StepForms.{AreStepParts, step_of};

    ghost Value = { ProofStep };

    ghost view = { λ s. step_of s.kind s.lits };

    ghost invariant = { λ s. AreStepParts s.kind s.lits };
}

impl Step {
    /// Leaves out repeated literals of a clause, in place.
    pub fn new(kind: Kind, lits: Lits) -> Step
        requires { IsStepForm kind lits }
        ensures { result ≡ step_of kind lits }
    {
        match kind {
            Kind::Add | Kind::Delete | Kind::Drop => Step {
                kind,
                lits: arrange(lits),
            },
            Kind::Fresh | Kind::Remove => Step { kind, lits },
        }
    }

    pub fn kind(&self) -> Kind
        ensures { result ≡ kind_of self.now }
    {
        self.kind
    }

    pub fn lits(&self) -> &[Lit]
        ensures value { result.now ≡ literals_of self.now }
        ensures whole { self.now ≡ step_of (kind_of self.now) result.now }
        ensures form { IsStepForm (kind_of self.now) result.now }
        ensures lawful { IsStep self.now }
    {
        self.lits.as_slice()
    }

    /// Gives the list of literals back, for the next step.
    pub fn into_lits(self) -> Lits
        ensures { result ≡ literals_of self }
    {
        self.lits
    }
}

// Puts the literals after the first into literal order, each once and none equal to the first.
fn arrange(lits: Lits) -> Lits
    ensures { result ≡ arranged lits }
{
    let mut row = lits.into_vec();
    if row.is_empty() {
        return Lits::from_vec(row);
    }
    let first = row[0];
    sort_clause(&mut row);
    bring_forward(&mut row, first);
    Lits::from_vec(row)
}

// Moves a literal of a clause to its front.
fn bring_forward(clause: &mut [Lit], lit: Lit)
    requires held { IsIn lit clause.old }
    requires ordered { ArePairs IsBelow clause.old }
    ensures { clause.new ≡ lit ∷ without lit clause.old }
{
    let at = place_of(clause, lit);
    clause[..=at].rotate_right(1);
}

fn place_of(clause: &[Lit], lit: Lit) -> usize
    requires { IsIn lit clause.now }
    ensures inside { result < length clause.now }
    ensures there { slice_index_or clause.now result lit ≡ lit }
{
    let mut at = 0;
    while !clause[at].is(lit) {
        at += 1;
    }
    at
}
