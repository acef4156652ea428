//! Laws on circuits that fit a prefix: each is the contract of a function that does nothing.
ghost use Rattle.std.specs.Prelude.{◌≡◌, ℕ, map, Contains, true};
ghost use Rattle.q_logic.specs.Prelude.{Prefix, Distinct, Reads, CertificateView, trees_of, Lawful, circuit_of, given as given_spec};
ghost use Rattle.q_certificate.specs.declared.error.Misfit.{Misfit};
ghost use Rattle.q_certificate.specs.declared.error.Misfit.TheVariants.{NoMemory as wanting};
ghost use Rattle.q_certificate.specs.Refusals.{Fits, IsMisfit};

use q_aig::Certificate;

/// What holds of every certificate: its circuits read its inputs alone, and where they fit a prefix they are lawful.
pub fn fitting_circuits_are_lawful(given: &Certificate)
    ensures lawful { (P : Prefix) → Fits P given.now → Lawful P (trees_of given.now) }
    ensures reads { (x u : ℕ) → given_spec (trees_of given.now x) ≡ true →
        Reads (circuit_of (trees_of given.now) x) u → Contains given.now.inputs u }
{
    let _ = given.outputs();
    let _ = given.aig().inputs();
}

/// Lawful circuits fit.
pub fn lawful_circuits_fit()
    ensures { (P : Prefix) → (c : CertificateView) → Distinct P → Lawful P (trees_of c) → Fits P c }
{}

/// Where one of the four refusals comes, circuits do not fit.
pub fn misfits_do_not_fit()
    ensures { (P : Prefix) → (c : CertificateView) → (e : Misfit) → ¬ (e ≡ wanting) → IsMisfit P c e
        → ¬ Fits P c }
{}

/// Circuits of the same inputs, names and trees fit alike.
pub fn alike_circuits_fit_alike()
    ensures { (P : Prefix) → (c : CertificateView) → (d : CertificateView) → c.inputs ≡ d.inputs
        → map (λ o. o.name) c.outputs ≡ map (λ o. o.name) d.outputs
        → ((x : ℕ) → trees_of c x ≡ trees_of d x)
        → Fits P c → Fits P d }
{}
