//! Laws on the definitions: each is the contract of a function that does nothing.
ghost use Rattle.std.specs.Prelude.{◌≡◌, ℕ, map};
ghost use Rattle.q_logic.specs.Prelude.{PrenexFormula, IsFormula, CertificateView, trees_of};
ghost use Rattle.q_logic.specs.Herbrands.{HerbrandOf};
ghost use Rattle.q_herbrand.specs.Refusals.{IsAccepted, IsRefused};
ghost use Rattle.q_herbrand.specs.declared.error.HerbrandError.{HerbrandError as AnyError};
ghost use Rattle.q_herbrand.specs.declared.error.HerbrandError.TheVariants.{NoMemory as wanting};

/// Herbrand functions of a formula are never refused as its circuits.
pub fn herbrand_functions_are_accepted()
    ensures { (G : PrenexFormula) → (c : CertificateView) → IsFormula G → HerbrandOf G (trees_of c)
        → IsAccepted G c }
{}

/// Circuits of the same inputs, names and trees are accepted alike.
pub fn alike_circuits_are_accepted_alike()
    ensures { (G : PrenexFormula) → (c : CertificateView) → (d : CertificateView)
        → c.inputs ≡ d.inputs → map (λ o. o.name) c.outputs ≡ map (λ o. o.name) d.outputs
        → ((x : ℕ) → trees_of c x ≡ trees_of d x) → IsAccepted G c → IsAccepted G d }
{}

/// Circuits for which one of the five refusals applies are not accepted.
pub fn refused_circuits_are_not_accepted()
    ensures { (G : PrenexFormula) → (c : CertificateView) → (e : AnyError) → ¬ (e ≡ wanting)
        → IsRefused G c e → ¬ IsAccepted G c }
{}
