//! Laws on the definitions: each is the contract of a function that does nothing.
ghost use Rattle.std.specs.Prelude.{◌≡◌, ◌≤◌, ◌<◌, ◌⊎◌, ◌++◌, ℕ, List, Some, length};
ghost use Rattle.q_logic.specs.Prelude.{IsIn, standard};
ghost use Rattle.q_log.specs.Logs.{Steps};
ghost use Rattle.q_command.specs.Checks.{AnswersExactly, Checks, MayCome};
ghost use Rattle.q_command.specs.Logs.{Entry as AnyEntry};
ghost use Rattle.q_command.specs.declared.outcome.Outcome.TheVariants.{RefusedEnd, RefusedLine, Verified};
ghost use Rattle.q_command.specs.declared.status.Status.{Status as CheckStatus};
ghost use Rattle.q_command.specs.declared.status.Status.TheVariants.{Done};
ghost use Rattle.q_command.specs.Parts.{ChecksShared, share_of};
ghost use Rattle.q_command.specs.declared.part.Part.{Part as AnyPart};
ghost use Rattle.q_shares.specs.Shares.{Share, first_dealt};
ghost use Rattle.q_parts.specs.LogParts.{AreSameWords, EndsLine, IsJoined};
ghost use Rattle.q_parts.specs.CheckedParts.{AllChecked, IsPlain, PartFile, all_logs, all_steps, last_file};

/// Where the first of two plain logs ends a line, both one behind the other are a log of the steps of both.
pub fn logs_are_joined()
    ensures { (limit : ℕ) → (first second : List ℕ) → (es us : List AnyEntry) → EndsLine first →
        length (first ++ second) ≤ limit → Steps limit first ≡ Some es → Steps limit second ≡ Some us →
        (both : List AnyEntry) × (Steps limit (first ++ second) ≡ Some both) × IsJoined es us both }
{}

/// Where `check` says `verified` of each part of a log without hints, its outcome over the whole log would be `verified` with the sum of the
/// numbers, and a call of it answers so, but for faults and want of memory.
pub fn checked_parts_are_checked()
    ensures says { (input : List ℕ) → (p : PartFile) → (ps : List PartFile) → AllChecked input p ps →
        length (all_logs p ps) ≤ standard.bytes →
        Checks (Verified (all_steps p ps)) input (last_file p ps) (all_logs p ps) }
    ensures answers { (answer : CheckStatus) → (input : List ℕ) → (p : PartFile) → (ps : List PartFile) →
        AllChecked input p ps → length (all_logs p ps) ≤ standard.bytes →
        AnswersExactly answer input (last_file p ps) (all_logs p ps) → (answer ≡ Done) ⊎ MayCome answer }
{}

/// Where `check` says `verified` of a log and of a first part of it, it would say so of the rest, whatever file with the right formula
/// stands between.
pub fn checked_logs_have_checked_parts()
    ensures { (input middle output first second : List ℕ) → (k n : ℕ) → (us : List AnyEntry) →
        EndsLine first → length (first ++ second) ≤ standard.bytes → IsPlain first →
        Checks (Verified k) input middle first → Steps standard.bytes second ≡ Some us →
        Checks (Verified n) input output (first ++ second) →
        Checks (Verified (length us)) middle output second }
{}

/// Plain logs with the same words, on whatever lines, are verified alike.
pub fn same_words_are_checked_alike()
    ensures { (input output log other : List ℕ) → (number : ℕ) → AreSameWords log other →
        length log ≤ standard.bytes → length other ≤ standard.bytes → IsPlain log →
        Checks (Verified number) input output log → Checks (Verified number) input output other }
{}

/// Where `check` would refuse a line, one of its parts says just that, and none says an earlier line: so the least line that parts refuse is
/// that of `check`. Where `check` would refuse the end, so does each part.
pub fn least_refusals_are_those_of_check()
    ensures told { (parts line cause : ℕ) → (input output log : List ℕ) → 0 < parts →
        Checks (RefusedLine line cause) input output log →
        (j : Share) × IsIn j (first_dealt 1000 parts parts) × ChecksShared j (RefusedLine line cause) input output log }
    ensures none_before { (p : AnyPart) → (line cause own other : ℕ) → (input output log : List ℕ) →
        Checks (RefusedLine line cause) input output log →
        ChecksShared (share_of p) (RefusedLine own other) input output log → line ≤ own }
    ensures ends { (p : AnyPart) → (cause : ℕ) → (input output log : List ℕ) →
        Checks (RefusedEnd cause) input output log →
        ChecksShared (share_of p) (RefusedEnd cause) input output log }
{}
