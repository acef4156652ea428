//! What `annotate` of a refutation promises to `disprove`, a law over the files that it leaves.
ghost use Rattle.std.specs.Prelude.{◌≡◌, ◌≢◌, ◌≤◌, ◌↔◌, ℕ, List, Bool, true, false, length, Some};
ghost use Rattle.q_logic.specs.Prelude.{PrenexFormula, ProofStep};
ghost use Rattle.q_io.specs.Files.{Disk, bytes_at};
ghost use Rattle.q_log.specs.Logs.{Parsed};
ghost use Rattle.q_shares.specs.Shares.{Share};
ghost use Rattle.q_command.specs.Logs.{steps_of};
ghost use Rattle.q_command.specs.Parts.{IsWhole};
ghost use Rattle.q_run_disprove.specs.Disproofs.{DisproveFiles, IsRefutation, OfFiles};
ghost use Rattle.q_run_disprove.specs.HintedDisproofs.{TellsFiles, is_hinted};
ghost use Rattle.q_run_disprove.specs.SharedDisproofs.{IsShareDisproof};
ghost use Rattle.q_run_disprove.specs.declared.disproved.Disproved.TheVariants as disproved;
ghost use Rattle.q_run_show.specs.ShownShares.{IsShareShown, IsShownText};
ghost use Rattle.q_run_show.specs.Shows.{HoldsShown, ShowFiles, two_read};

/// Where all steps are of the part, it is due exactly where PROOF refutes the formula of IN, and what it writes is a log with hints whose
/// steps are those of PROOF up to the empty clause. Over the files that it left, `disprove IN HINTED` says `false N` by these hints alone, of
/// as many steps; it reads no proof of more bytes than the limit.
pub fn shown_refutations_disprove()
    ensures due { (j : Share) → IsWhole j → (n : DisproveFiles) → (binary : Bool) → (disk : Disk)
        → IsShareDisproof j n binary disk ↔ OfFiles n binary disk IsRefutation }
    ensures text { (j : Share) → IsWhole j → (steps : ℕ) → (text : List ℕ) → (F : PrenexFormula) → (p : Parsed)
        → IsShareShown j steps text F p → IsShownText F (steps_of p.steps) steps text }
    ensures hinted { (j : Share) → IsWhole j → (n : ShowFiles) → (steps : ℕ) → (binary : Bool) → (before after : Disk)
        → HoldsShown j steps n binary before (Some after)
        → length (bytes_at after n.hinted) ≤ 1099511627776 → is_hinted false (bytes_at after n.hinted) ≡ true }
    ensures accepted { (j : Share) → IsWhole j → (n : ShowFiles) → (steps : ℕ) → (binary : Bool) → (before after : Disk)
        → n.hinted ≢ n.input → HoldsShown j steps n binary before (Some after)
        → length (bytes_at after n.hinted) ≤ 1099511627776
        → TellsFiles (disproved.False steps) (record { input = n.input; proof = n.hinted }) false after }
{}
