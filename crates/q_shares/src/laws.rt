//! Laws on the definitions: each is the contract of a function that does nothing.
ghost use Rattle.std.specs.Prelude.{◌≡◌, ◌<◌, ◌↔◌, ℕ, true, List, length};
ghost use Rattle.q_logic.specs.declared.limits.Limits.{Limits};
ghost use Rattle.q_logic.specs.Prelude.{PrenexFormula, IsIn, ProofStep, Run};
ghost use Rattle.q_logic.specs.Hinted.{Hinted, HintedRun};
ghost use Rattle.q_shares.specs.Shares.{AllSay, AreDealt, AreMade, IsFirstWrong, Refuses, Share, counts, first_dealt};
ghost use Rattle.q_shares.specs.HintedShares.{AllSayHinted};

/// Where each step is in one share, the steps are a run exactly where all who check a share say so, and the numbers of the steps that
/// they judge add up.
pub fn shares_make_runs()
    ensures exact { (js : List Share) → (F G : PrenexFormula) → (ss : List ProofStep) → AreDealt js →
        AllSay js F ss G ↔ Run F ss G }
    ensures counts { (js : List Share) → (ss : List ProofStep) → AreDealt js → counts js 0 ss ≡ length ss }
{}

/// Blocks of steps that are dealt in turn make such shares.
pub fn blocks_are_dealt()
    ensures { (b n : ℕ) → 0 < n → AreDealt (first_dealt b n n) }
{}

/// The first wrong step is told by the one who judges it, with the cause that `check` tells; and where all make the steps before, what the
/// one who judges the next says is what `check` says.
pub fn first_refusals_are_told()
    ensures told { (js : List Share) → (m : Limits) → (F : PrenexFormula) → (ss : List ProofStep) → (s : ProofStep) → (n : ℕ)
        → AreDealt js → IsFirstWrong m F ss s n →
        (j : Share) × IsIn j js × (j (length ss) ≡ true) × Refuses j m F ss s n }
    ensures right { (js : List Share) → (m : Limits) → (F : PrenexFormula) → (ss : List ProofStep) → (s : ProofStep) → (n : ℕ)
        → AreDealt js → ((i : Share) → IsIn i js → AreMade i m 0 F ss) → (j : Share) → IsIn j js →
        j (length ss) ≡ true → Refuses j m F ss s n → IsFirstWrong m F ss s n }
{}

/// The same of a log with hints: its steps are a run, as their proof parts show, exactly where all who check a share say so.
pub fn hinted_shares_make_runs()
    ensures { (js : List Share) → (F G : PrenexFormula) → (hs : List Hinted) → AreDealt js →
        AllSayHinted js F hs G ↔ HintedRun F hs G }
{}
