//! Laws on the definitions: each is the contract of a function that does nothing.
ghost use Rattle.std.specs.Prelude.{◌↔◌, ℕ, List};
ghost use Rattle.q_logic.specs.Prelude.{CertificateView};
ghost use Rattle.q_aiger.specs.Circuits.{AreCircuits, Offence};
ghost use Rattle.q_aiger.specs.Grammar.{Circuits};
ghost use Rattle.q_aiger.specs.Writing.{IsCanonical};
ghost use Rattle.q_aiger.specs.RoundTrip.{IsSpellable, IsReadAs};
ghost use Rattle.q_aiger.specs.Alike.{AreAlike, IsNoCircuits};

/// A text is in the grammar exactly where its lines have no offence, and its circuits are those of the grammar.
pub fn grammar_is_read()
    ensures { (bytes : List ℕ) → (circuits : CertificateView)
        → Circuits bytes circuits ↔ AreCircuits bytes circuits }
{}

/// In whatever order the gates of a file are put, the circuits have the same inputs, names and trees.
pub fn one_text_has_one_meaning()
    ensures { (bytes : List ℕ) → (c : CertificateView) → (d : CertificateView) → AreCircuits bytes c
        → AreCircuits bytes d → AreAlike c d }
{}

/// A text with an offence holds no circuits.
pub fn an_offence_leaves_no_circuits()
    ensures { (bytes : List ℕ) → (line : ℕ) → (cause : ℕ) → Offence bytes line cause
        → IsNoCircuits bytes }
{}

/// The canonical text of a certificate that keeps the limits is read as circuits of the same inputs, names and values.
pub fn written_is_read()
    ensures { (certificate : CertificateView) → (gates : ℕ) → (text : List ℕ)
        → IsCanonical certificate gates text → IsSpellable certificate gates text
        → IsReadAs certificate text }
{}
