//! Each law is the contract of a function that does nothing.
ghost use Rattle.std.specs.Prelude.{◌≡◌, ◌≤◌, ◌<◌, ◌↔◌, ℕ, true, false, List, Option, None, Some, sum};
ghost use Rattle.q_logic.specs.declared.limits.Limits.{Limits};
ghost use Rattle.q_logic.specs.Prelude.{PrenexFormula, IsIn, ProofStep};
ghost use Rattle.q_shares.specs.Shares.{AreDealt, Share};
ghost use Rattle.q_refutation.specs.Refutations.{RefusedAt, RefutedIn, Refutes};
ghost use Rattle.q_refutation.specs.SharedRefutations.{AllRefute, AllSharedIn, ComesTo, IsOwner, RefusedShared, RefutesShared, SharedIn};

/// Where each step is in one share, the steps are a refutation exactly where all who check a share say so, and the numbers of the steps of
/// their shares add up.
pub fn shares_make_refutations()
    ensures exact { (js : List Share) → (m : Limits) → (F : PrenexFormula) → (ss : List ProofStep) → AreDealt js →
        AllRefute js m F ss ↔ Refutes false m F ss }
    ensures counts { (js : List Share) → (m : Limits) → (F : PrenexFormula) → (ss : List ProofStep) → (ns : List ℕ) → AreDealt js →
        AllSharedIn js m 0 F ss ns → RefutedIn false m F ss (sum ns) }
{}

/// Who checks a share says that the empty clause comes, and then one number says of how many steps of the share; or refuses, at one place
/// for one cause.
pub fn shares_refute_or_are_refused()
    ensures number { (j : Share) → (m : Limits) → (F : PrenexFormula) → (ss : List ProofStep) → RefutesShared j m 0 F ss ↔
        ((n : ℕ) × SharedIn j m 0 F ss n) }
    ensures one { (j : Share) → (m : Limits) → (F : PrenexFormula) → (ss : List ProofStep) → (n i : ℕ) → SharedIn j m 0 F ss n →
        SharedIn j m 0 F ss i → n ≡ i }
    ensures not_both { (j : Share) → (m : Limits) → (F : PrenexFormula) → (ss : List ProofStep) → (n at : ℕ) → (cause : Option ℕ) →
        SharedIn j m 0 F ss n → ¬ RefusedShared j m 0 F ss at cause }
    ensures whole { (j : Share) → (m : Limits) → (F : PrenexFormula) → (ss : List ProofStep) → (n : ℕ) → ((k : ℕ) → j k ≡ true) →
        SharedIn j m 0 F ss n ↔ RefutedIn false m F ss n }
{}

/// The first bad step is told by the one who judges it, with its least cause, and nobody refuses an earlier one; where the steps end without
/// the empty clause, all say so. And where nobody refuses an earlier step, what the one who judges it says of a step is so.
pub fn first_bad_steps_are_told()
    ensures told { (js : List Share) → (m : Limits) → (F : PrenexFormula) → (ss : List ProofStep) → (at : ℕ) → (cause : Option ℕ) →
        AreDealt js → RefusedAt false m F ss at cause →
        (j : Share) × IsIn j js × RefusedShared j m 0 F ss at cause }
    ensures none_before { (j : Share) → (m : Limits) → (F : PrenexFormula) → (ss : List ProofStep) → (at other : ℕ) →
        (cause own : Option ℕ) → RefusedAt false m F ss at cause → RefusedShared j m 0 F ss other own → at ≤ other }
    ensures ends { (j : Share) → (m : Limits) → (F : PrenexFormula) → (ss : List ProofStep) → (at : ℕ) →
        RefusedAt false m F ss at None → RefusedShared j m 0 F ss at None }
    ensures right { (js : List Share) → (m : Limits) → (F : PrenexFormula) → (ss : List ProofStep) → (at : ℕ) → (cause : Option ℕ) →
        AreDealt js → (j : Share) → IsIn j js → IsOwner j at cause → RefusedShared j m 0 F ss at cause →
        ((i : Share) → IsIn i js → ComesTo i m F ss at) → RefusedAt false m F ss at cause }
{}
