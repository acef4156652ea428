//! Laws on the definitions: each is the contract of a function that does nothing.
ghost use Rattle.std.specs.Prelude.{◌<◌, ℕ, List, sum};
ghost use Rattle.q_shares.specs.Shares.{first_dealt};
ghost use Rattle.q_command.specs.Checks.{Checks};
ghost use Rattle.q_command.specs.Parts.{AllVerified, ChecksShared, share_of};
ghost use Rattle.q_command.specs.declared.outcome.Outcome.TheVariants.{Verified};
ghost use Rattle.q_command.specs.declared.part.Part.{Part as AnyPart};

/// Where all parts of a check say `verified`, `check` would say so, with the sum of their numbers; and where `check` would say so, each part
/// does.
pub fn verified_parts_verify()
    ensures whole { (parts : ℕ) → (numbers : List ℕ) → (input output log : List ℕ) → 0 < parts
        → AllVerified (first_dealt 1000 parts parts) numbers input output log
        → Checks (Verified (sum numbers)) input output log }
    ensures parts { (p : AnyPart) → (number : ℕ) → (input output log : List ℕ)
        → Checks (Verified number) input output log
        → (own : ℕ) × ChecksShared (share_of p) (Verified own) input output log }
{}
