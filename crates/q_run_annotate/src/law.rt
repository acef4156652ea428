//! What `annotate` promises to `check`, a law over the files that it leaves, and what all its parts are together.
ghost use Rattle.std.specs.Prelude.{◌≡◌, ◌≢◌, ◌≤◌, ◌<◌, ◌↔◌, ℕ, List, length, sum, Some};
ghost use Rattle.q_logic.specs.Prelude.{IsIn, PrenexFormula, standard};
ghost use Rattle.q_io.specs.Files.{Disk, bytes_at};
ghost use Rattle.q_log.specs.Logs.{Steps};
ghost use Rattle.q_shares.specs.Shares.{Share, first_dealt};
ghost use Rattle.q_command.specs.Checks.{IsVerified};
ghost use Rattle.q_command.specs.Logs.{Entry, steps_of};
ghost use Rattle.q_run_annotate.specs.Annotates.{AnnotateFiles, IsAnnotation, IsPlainVerified, IsWhole, SaysVerified};
ghost use Rattle.q_run_annotate.specs.AnnotatedParts.{IsShareVerified};
ghost use Rattle.q_run_annotate.specs.JoinedParts.{AreAnnotations, AreJoined, AreSingle, IsHintedLogOf};

/// Over the files that `annotate` left, HINTED leads from the one formula to the other, so `check` verifies it; it reads no
/// log of more bytes than the limit. Where it says how many steps it verified, these are as many as `annotate` said.
pub fn annotated_is_verified()
    ensures verified { (n : AnnotateFiles) → (steps : ℕ) → (before after : Disk)
        → n.hinted ≢ n.input → n.hinted ≢ n.output → IsWhole steps n before (Some after)
        → length (bytes_at after n.hinted) ≤ 1099511627776
        → IsVerified (bytes_at after n.input) (bytes_at after n.output) (bytes_at after n.hinted) }
    ensures count { (n : AnnotateFiles) → (steps : ℕ) → (before after : Disk)
        → IsWhole steps n before (Some after) → length (bytes_at after n.hinted) ≤ 1099511627776
        → (k : ℕ) → SaysVerified k (bytes_at after n.input) (bytes_at after n.output)
        (bytes_at after n.hinted) → k ≡ steps }
{}

/// All parts of `annotate` are due exactly where the whole is.
pub fn parts_annotate_what_annotate_does()
    ensures { (parts : ℕ) → (input output log : List ℕ) → 0 < parts →
        ((j : Share) → IsIn j (first_dealt 1000 parts parts) → IsShareVerified j input output log)
        ↔ IsPlainVerified input output log }
{}

/// The lines of all parts can be taken 1,000 of each in turn; behind the header they are the canonical text of a log with hints that has the steps of LOG, and
/// the numbers that the parts say add up to how many these are. Where no clause stands twice at any time, it is a text that `annotate` may
/// write; else parts may have given copies of a clause different numbers, and `check` decides.
pub fn joined_parts_are_hinted_logs()
    ensures joined { (parts : ℕ) → (numbers log : List ℕ) → (from to : PrenexFormula)
        → (texts : List (List ℕ)) → (text : List ℕ) → 0 < parts
        → AreAnnotations (first_dealt 1000 parts parts) numbers log from to texts
        → AreJoined (first_dealt 1000 parts parts) texts text → IsHintedLogOf log from to text }
    ensures there { (parts : ℕ) → (numbers log : List ℕ) → (from to : PrenexFormula)
        → (texts : List (List ℕ)) → 0 < parts
        → AreAnnotations (first_dealt 1000 parts parts) numbers log from to texts
        → (text : List ℕ) × AreJoined (first_dealt 1000 parts parts) texts text }
    ensures counts { (parts : ℕ) → (numbers log : List ℕ) → (from to : PrenexFormula)
        → (texts : List (List ℕ)) → (es : List Entry) → 0 < parts
        → AreAnnotations (first_dealt 1000 parts parts) numbers log from to texts
        → Steps standard.bytes log ≡ Some es → sum numbers ≡ length es }
    ensures single { (log : List ℕ) → (from to : PrenexFormula) → (text : List ℕ)
        → (h : IsHintedLogOf log from to text) → AreSingle from (steps_of h.entries)
        → IsAnnotation log (length h.entries) from to text }
{}
