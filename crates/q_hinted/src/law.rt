// The laws of hinted logs: what the reader hands out is what the grammar says, and the first token tells the profile.
ghost use Rattle.std.specs.Prelude.{◌≡◌, ◌↔◌, ◌≤◌, ℕ, List, Some, None, length, map};
ghost use Rattle.std.specs.List.{AllByRecursion};
ghost use Rattle.q_logic.specs.Prelude.{Hinted};
ghost use Rattle.q_log.specs.Logs.{Steps, read};
ghost use Rattle.q_hinted.specs.Logs.{HintedSteps, Profile, hinted_entry, hinted_in, plain_entries, read_entries};
ghost use Rattle.q_hinted.specs.Spelled.{HintedLog};
ghost use Rattle.q_hinted.specs.Texts.{IsWritten, log_text, on_lines};

/// A log of the second profile is read, as its steps with their proof parts, exactly where it is spelled in the grammar.
pub fn hinted_grammar_is_read()
    ensures { (limit : ℕ) → (bytes : List ℕ) → (hs : List (ℕ × Hinted)) →
        HintedLog limit bytes hs ↔ (HintedSteps limit bytes ≡ Some hs) }
{}

/// The canonical text of steps with proof parts is a log of these, each on a line of its own behind the header.
pub fn hinted_texts_are_read()
    ensures { (limit : ℕ) → (hs : List Hinted) → AllByRecursion IsWritten hs → length (log_text hs)
        ≤ limit →
        HintedSteps limit (log_text hs) ≡ Some (on_lines 2 hs) }
{}

/// Of the first profile a log says what it says as a plain log, and no step has a proof part. Of the second it is no
/// plain log, and each step that is handed out has a proof part.
pub fn first_token_tells()
    ensures plain { (limit : ℕ) → (bytes : List ℕ) → Profile limit bytes ≡ 1 →
        read_entries limit bytes ≡ plain_entries (read limit bytes) }
    ensures apart { (limit : ℕ) → (bytes : List ℕ) → Profile limit bytes ≡ 2
        → Steps limit bytes ≡ None }
    ensures parts { (limit : ℕ) → (bytes : List ℕ) → Profile limit bytes ≡ 2 →
        (read_entries limit bytes).entries
        ≡ map hinted_entry (hinted_in (read_entries limit bytes).entries) }
{}
