//! Laws on the definitions: each is the contract of a function that does nothing.
ghost use Rattle.std.specs.Prelude.{◌≡◌, ℕ, List, map};
ghost use Rattle.q_logic.specs.Prelude.{PrenexFormula, IsFormula, CertificateView, trees_of, Strategy, SkolemOf, outcome, Assignment, ProofStep, UndoEntry, Undos, Back};
ghost use Rattle.q_rebuild.specs.Refusals.{IsAccepted};

/// Skolem functions of a formula are never refused as its circuits.
pub fn skolem_functions_are_accepted()
    ensures { (G : PrenexFormula) → (c : CertificateView) → IsFormula G → SkolemOf G (trees_of c)
        → IsAccepted G c }
{}

/// Circuits of the same inputs, names and trees are accepted alike.
pub fn alike_circuits_are_accepted_alike()
    ensures { (G : PrenexFormula) → (c : CertificateView) → (d : CertificateView)
        → c.inputs ≡ d.inputs → map (λ o. o.name) c.outputs ≡ map (λ o. o.name) d.outputs
        → ((x : ℕ) → trees_of c x ≡ trees_of d x) → IsAccepted G c → IsAccepted G d }
{}

/// The order of the outer clauses in an undo list says nothing: any two undo lists of the same steps take circuits back
/// to the same values.
pub fn undo_lists_take_back_alike()
    ensures { (F : PrenexFormula) → (ss : List ProofStep) → (us vs : List UndoEntry)
        → (c : Strategy) → (A : Assignment) → (x : ℕ) → Undos F ss us → Undos F ss vs
        → outcome (Back us c) A x ≡ outcome (Back vs c) A x }
{}
