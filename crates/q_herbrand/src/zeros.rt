//! Circuits that are 0: Herbrand functions of a formula with the empty clause.
ghost use Rattle.std.specs.Prelude.{◌≡◌, ◌++◌, ◌∷◌, [], ℕ, true, IfOk, OnOk};
ghost use Rattle.q_logic.specs.Prelude.{Distinct, is_universal};
ghost use Rattle.q_herbrand.specs.Disproved.{universals_in, AreZerosOf};

use q_aig::{Aig, Certificate};
use q_certificate::{Table, name_outputs};
use q_judge::Scope;
use q_logic::{Bound, NoMemory, Quant};
use std::alloc::Global;

// Puts a variable behind others, where it is a universal of the scope.
fn put(made: &mut Vec<Bound>, scope: &Scope, bound: Bound) -> Result<(), NoMemory>
    ensures { OnOk result (made.new.items
        ≡ made.old.items ++ universals_in scope.now (bound ∷ [])) }
{
    if !scope.is_universal(bound.var) {
        return Ok(());
    }
    made.push(Bound {
        quant: Quant::Exists,
        var: bound.var,
    })?;
    Ok(())
}

// The universals of the scope among the variables of a prefix, as variables that get outputs.
fn universals_among(alloc: Global, scope: &Scope, prefix: &[Bound]) -> Result<Vec<Bound>, NoMemory>
    ensures { IfOk result (λ made. made.items ≡ universals_in scope.now prefix.now) }
{
    let mut made = Vec::new(alloc);
    for at in 0..prefix.len() {
        put(&mut made, scope, prefix[at])?;
    }
    Ok(made)
}

/// A circuit for each universal of the scope, which are among those of the prefix: each is 0.
pub fn zeros_among(alloc: Global, scope: &Scope, prefix: &[Bound]) -> Result<Certificate, NoMemory>
    requires distinct { Distinct prefix.now }
    requires among { (u : ℕ) → is_universal scope.now u ≡ true → is_universal prefix.now u ≡ true }
    ensures { IfOk result (AreZerosOf scope.now) }
{
    let universals = universals_among(alloc, scope, prefix)?;
    let made = name_outputs(Aig::new(alloc), &universals, &Table::new(alloc))?;
    Ok(made)
}
