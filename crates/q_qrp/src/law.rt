//! The grammar and the reader say the same.
ghost use Rattle.std.specs.Prelude.{◌↔◌, ℕ, List};
ghost use Rattle.q_qrp.specs.Grammar.{Trace};
ghost use Rattle.q_qrp.specs.Lines.{Proof};
ghost use Rattle.q_qrp.specs.Offences.{TraceOf};

/// A trace is read, as its proof, exactly where it is spelled in the grammar.
pub fn grammar_is_read()
    ensures { (most : ℕ) → (bytes : List ℕ) → (p : Proof) → Trace most bytes p
        ↔ TraceOf most bytes p }
{}
