//! Laws on the definitions: each is the contract of a function that does nothing.
ghost use Rattle.std.specs.Prelude.{◌≤◌, ◌<◌, ℕ, Bool, List, sum};
ghost use Rattle.q_logic.specs.Prelude.{IsIn};
ghost use Rattle.q_io.specs.Files.{Disk};
ghost use Rattle.q_shares.specs.Shares.{Share, first_dealt};
ghost use Rattle.q_command.specs.Parts.{share_of};
ghost use Rattle.q_command.specs.declared.outcome.Outcome.TheVariants as shared;
ghost use Rattle.q_command.specs.declared.part.Part.{Part as AnyPart};
ghost use Rattle.q_run_disprove.specs.Disproofs.{DisproveFiles, IsRefutation, OfFiles, Says};
ghost use Rattle.q_run_disprove.specs.HintedDisproofs.{TellsFiles};
ghost use Rattle.q_run_disprove.specs.SharedDisproofs.{AllPartsVerified, PartSays};
ghost use Rattle.q_run_disprove.specs.declared.disproved.Disproved.TheVariants as outcome;

/// Where all parts of `disprove` say `verified`, the formula is false, by as many steps as their numbers make together; and where it is,
/// each part says `verified`.
pub fn verified_parts_disprove()
    ensures whole { (parts : ℕ) → (ms : List ℕ) → (n : DisproveFiles) → (binary : Bool) → (disk : Disk) → 0 < parts →
        AllPartsVerified (first_dealt 1000 parts parts) ms n binary disk → Says (outcome.False (sum ms)) n binary disk }
    ensures parts { (p : AnyPart) → (m : ℕ) → (n : DisproveFiles) → (binary : Bool) → (disk : Disk) →
        Says (outcome.False m) n binary disk → (k : ℕ) × PartSays (share_of p) (shared.Verified k) n binary disk }
{}

/// Where `disprove` would refuse a line, one of its parts says just that, and none says an earlier line: so the least line that parts refuse
/// is that of `disprove`. Where `disprove` would refuse the end, so does each part.
pub fn least_refusals_of_parts_are_those_of_disprove()
    ensures told { (parts line cause : ℕ) → (n : DisproveFiles) → (binary : Bool) → (disk : Disk) → 0 < parts →
        Says (outcome.RefusedLine line cause) n binary disk →
        (j : Share) × IsIn j (first_dealt 1000 parts parts) × PartSays j (shared.RefusedLine line cause) n binary disk }
    ensures none_before { (p : AnyPart) → (line cause own other : ℕ) → (n : DisproveFiles) → (binary : Bool) → (disk : Disk) →
        Says (outcome.RefusedLine line cause) n binary disk →
        PartSays (share_of p) (shared.RefusedLine own other) n binary disk → line ≤ own }
    ensures ends { (p : AnyPart) → (n : DisproveFiles) → (binary : Bool) → (disk : Disk) →
        Says outcome.RefusedEnd n binary disk → PartSays (share_of p) (shared.RefusedEnd 11) n binary disk }
{}

/// A log with hints that `disprove` accepts refutes without its hints too: so each part says `verified`, which looks at none.
pub fn hinted_disproofs_are_disproofs()
    ensures steps { (m : ℕ) → (n : DisproveFiles) → (binary : Bool) → (disk : Disk) → TellsFiles (outcome.False m) n binary disk →
        OfFiles n binary disk IsRefutation }
    ensures parts { (p : AnyPart) → (m : ℕ) → (n : DisproveFiles) → (binary : Bool) → (disk : Disk) →
        TellsFiles (outcome.False m) n binary disk → (k : ℕ) × PartSays (share_of p) (shared.Verified k) n binary disk }
{}
