//! Laws on first moves: each is the contract of a function that does nothing. The game on a formula
//! goes in rounds, and what is played in the first rounds at the end of a run decides what is played
//! in the first rounds at its beginning.
ghost use Rattle.std.specs.Prelude.{◌≡◌, ◌↔◌, ℕ, true, false, List};
ghost use Rattle.q_logic.specs.Formulas.{Prefix, PrenexFormula};
ghost use Rattle.q_logic.specs.Prefixes.{IsFormula, Distinct, is_existential, universal_before};
ghost use Rattle.q_logic.specs.Truth.{Assignment, HoldsUnder};
ghost use Rattle.q_logic.specs.Skolems.{Strategy, Lawful, outcome};
ghost use Rattle.q_logic.specs.Steps.{ProofStep};
ghost use Rattle.q_logic.specs.Runs.{Run};
ghost use Rattle.q_logic.specs.Undos.{UndoEntry, Undos, Back};
ghost use Rattle.q_logic.specs.Moves.{IsFirst, Agree, CanBeCompleted, HasFirst, Wins, later};

/// An existential is a first one exactly where no universal stands before it.
pub fn first_stands_before_universals()
    ensures { (P : Prefix) → (x : ℕ) → Distinct P → is_existential P x ≡ true →
        IsFirst P x ↔ ((u : ℕ) → universal_before P u x ≡ false) }
{}

/// What a strategy for the end of a run says on the existentials before all universals decides what
/// it says on those of the beginning, when it is taken back; nothing else that it says matters, lawful
/// or not.
pub fn first_moves_are_carried_back()
    ensures { (F G : PrenexFormula) → (ss : List ProofStep) → (us : List UndoEntry)
        → (c d : Strategy) →
        (A : Assignment) → IsFormula F → Run F ss G → Undos F ss us →
        Agree G.prefix 0 c d A → Agree F.prefix 0 (Back us c) (Back us d) A }
{}

/// The same for the existentials behind at most n universal blocks, where both strategies are lawful.
pub fn moves_are_carried_back()
    ensures { (F G : PrenexFormula) → (ss : List ProofStep) → (us : List UndoEntry)
        → (c d : Strategy) →
        (A : Assignment) → (n : ℕ) → IsFormula F → Run F ss G → Undos F ss us →
        Lawful G.prefix c → Lawful G.prefix d →
        Agree G.prefix n c d A → Agree F.prefix n (Back us c) (Back us d) A }
{}

/// Moves that Skolem functions of the end can complete become moves that Skolem functions of the
/// beginning can complete.
pub fn completions_are_carried_back()
    ensures first { (F G : PrenexFormula) → (ss : List ProofStep) → (us : List UndoEntry)
        → (c : Strategy) →
        IsFormula F → Run F ss G → Undos F ss us → CanBeCompleted G 0 c
        → CanBeCompleted F 0 (Back us c) }
    ensures rounds { (F G : PrenexFormula) → (ss : List ProofStep) → (us : List UndoEntry)
        → (c : Strategy) →
        (n : ℕ) → IsFormula F → Run F ss G → Undos F ss us → Lawful G.prefix c →
        CanBeCompleted G n c → CanBeCompleted F n (Back us c) }
{}

/// A formula stays true with first values set exactly where the game goes on from them to a true end.
pub fn first_values_begin_the_game()
    ensures { (F : PrenexFormula) → (a : Assignment) →
        IsFormula F → Wins F a ↔ HoldsUnder (later F.prefix) F.matrix a }
{}

/// First values under which the end stays true become first values under which the beginning stays
/// true.
pub fn winning_moves_are_carried_back()
    ensures { (F G : PrenexFormula) → (ss : List ProofStep) → (us : List UndoEntry) → (c : Strategy)
        →
        (A : Assignment) → IsFormula F → IsFormula G → Run F ss G → Undos F ss us → HasFirst G c →
        Wins G (outcome c A) → Wins F (outcome (Back us c) A) }
{}
