//! Laws on offences: each is the contract of a function that does nothing.
ghost use Rattle.std.specs.Prelude.{◌≡◌, ◌↔◌, ℕ, List, [], ◌∷◌, ◌++◌, Some, None};
ghost use Rattle.q_logic.specs.declared.limits.Limits.{Limits};
ghost use Rattle.q_logic.specs.Prelude.{PrenexFormula, CertificateView};
ghost use Rattle.q_text.specs.declared.tokens.TokenKind.{TokenKind};
ghost use Rattle.q_dimacs.specs.Dimacs.{Dimacs};
ghost use Rattle.q_dimacs.specs.Offences.{Offence};
ghost use Rattle.q_log.specs.declared.error.LogError.{LogError};
ghost use Rattle.q_log.specs.Logs.{read};
ghost use Rattle.q_hinted.specs.Logs.{read_entries};
ghost use Rattle.q_aiger.specs.Circuits.{Offence as CircuitOffence};
ghost use Rattle.q_aiger.specs.Grammar.{Circuits};
ghost use Rattle.q_offences.specs.FormulaFronts.{IsWhole, MayGoOn};
ghost use Rattle.q_offences.specs.FormulaTable.{Row, AppliesAt, AppliesAtEnd, IsFirstOffence};
ghost use Rattle.q_offences.specs.CircuitTable.{IsFirstOffence as IsFirstCircuitOffence};
ghost use Rattle.q_offences.specs.Logs.{IsPlainLog, IsLog, IsFirstRefusal, IsWholeLog};

/// The offence of a text is at the first place behind which no formula file goes on, with the cause that stands highest in the table
/// of those that apply there.
pub fn formula_offences_are_first()
    ensures { (limits : Limits) → (bytes : List ℕ) → (line cause : ℕ)
        → Offence limits bytes line cause ↔ IsFirstOffence limits bytes line cause }
{}

/// Behind tokens that some formula file begins with a row of the table applies exactly where no formula file goes on.
pub fn rows_stop_formulas()
    ensures token { (limits : Limits) → (front : List TokenKind) → (kind : TokenKind)
        → MayGoOn limits front → ((row : Row) × AppliesAt limits front kind row)
        ↔ (¬ MayGoOn limits (front ++ kind ∷ [])) }
    ensures end { (limits : Limits) → (front : List TokenKind) → MayGoOn limits front
        → ((row : Row) × AppliesAtEnd limits front row) ↔ (¬ IsWhole limits front) }
{}

/// A text has an offence exactly where it is no formula file, and none exactly where it is one.
pub fn formulas_or_offences()
    ensures offence { (limits : Limits) → (bytes : List ℕ)
        → ((line : ℕ) × (cause : ℕ) × Offence limits bytes line cause)
        ↔ ((formula : PrenexFormula) → ¬ Dimacs limits bytes formula) }
    ensures none { (limits : Limits) → (bytes : List ℕ)
        → ((line cause : ℕ) → ¬ Offence limits bytes line cause)
        ↔ ((formula : PrenexFormula) × Dimacs limits bytes formula) }
{}

/// A log without hints is refused at the first token behind which no such log goes on, at an end inside a step, or at the byte past the
/// limit; else it is a log.
pub fn log_offences_are_first()
    ensures refused { (limit : ℕ) → (bytes : List ℕ) → (error : LogError)
        → ((read limit bytes).refused ≡ Some error) ↔ IsFirstRefusal IsPlainLog limit bytes error }
    ensures whole { (limit : ℕ) → (bytes : List ℕ)
        → ((read limit bytes).refused ≡ None) ↔ IsWholeLog IsPlainLog limit bytes }
{}

/// A log of either profile is refused at the first token behind which no log of either goes on, at an end inside the header, a step or a
/// proof part, or at the byte past the limit; else it is a log of one of them.
pub fn hinted_log_offences_are_first()
    ensures refused { (limit : ℕ) → (bytes : List ℕ) → (error : LogError)
        → ((read_entries limit bytes).refused ≡ Some error) ↔ IsFirstRefusal IsLog limit bytes error }
    ensures whole { (limit : ℕ) → (bytes : List ℕ)
        → ((read_entries limit bytes).refused ≡ None) ↔ IsWholeLog IsLog limit bytes }
{}

/// The offence of a circuit file is that of its header or of too many bytes; else of the first line that is not as it must be; else of the
/// first output or gate that uses a variable without a line; else of the first gate that depends on itself. The causes are those of the
/// table.
pub fn circuit_offences_are_first()
    ensures { (bytes : List ℕ) → (line cause : ℕ)
        → CircuitOffence bytes line cause ↔ IsFirstCircuitOffence bytes line cause }
{}

/// A file has an offence exactly where it holds no circuits, and none exactly where it holds some.
pub fn circuits_or_offences()
    ensures offence { (bytes : List ℕ)
        → ((line : ℕ) × (cause : ℕ) × CircuitOffence bytes line cause)
        ↔ ((circuits : CertificateView) → ¬ Circuits bytes circuits) }
    ensures none { (bytes : List ℕ) → ((line cause : ℕ) → ¬ CircuitOffence bytes line cause)
        ↔ ((circuits : CertificateView) × Circuits bytes circuits) }
{}
