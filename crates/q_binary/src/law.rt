//! The law is the contract of a function that does nothing.
ghost use Rattle.std.specs.Prelude.{◌≡◌, ◌≤◌, ◌+◌, ℕ, List, Option, None, ◌++◌, length};
ghost use Rattle.q_logic.specs.Prelude.{IsIn};
ghost use Rattle.q_log.specs.declared.error.LogError.{LogError};
ghost use Rattle.q_log.specs.Logs.{onto};
ghost use Rattle.q_binary.specs.BinaryProofs.{AreLiterals, Entry, Place, between, entry_bytes, numbered, parsed, proof_bytes, read, step_of_entry};

/// A step is told by its own bytes, whatever stands behind them; and what is written is read.
pub fn binary_proofs_are_read()
    ensures step { (last : ℕ → Place → Option LogError) → (n : ℕ) → (e : Entry) → (rest : List ℕ) → AreLiterals e.lits →
        parsed last n between (entry_bytes e ++ rest) ≡ onto (n, step_of_entry e) (parsed last (n + 1) between rest) }
    ensures whole { (limit : ℕ) → (es : List Entry) → ((e : Entry) → IsIn e es → AreLiterals e.lits) → length (proof_bytes es) ≤ limit →
        read limit (proof_bytes es) ≡ record { steps = numbered 1 es; refused = None } }
{}
