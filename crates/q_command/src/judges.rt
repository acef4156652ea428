// The checkers of a log of either profile. A log tells its profile by its first token; here each step goes to the checker
// that it asks for, and a checker is made at the first such step.
ghost use Rattle.std.specs.Prelude.{◌≡◌, ◌≤◌, ◌<◌, ◌+◌, ◌∷◌, ◌++◌, ◌^◌, [], List, length, ℕ, Bool, false, Ok, Err, IfOk, IfErr, OnOk};
ghost use Rattle.q_logic.specs.Prelude.{PrenexFormula, Hinted};
ghost use Rattle.q_shares.specs.Shares.{Share};
ghost use Rattle.q_hinted.specs.Logs.{Entry as BothEntry};
ghost use Rattle.q_command.specs.Logs.{Entry};
ghost use Rattle.q_command.specs.Judging.{AreBehind, ArePure, IsFree, IsMade, IsTurn, IsRefusedBehind, IsBehindPlain, IsBehindHinted, IsBadPlain, IsBadHinted, HavePassed, HaveStopped, HavePassedPlain, HaveStoppedPlain, SameTask};
ghost use Rattle.q_command.specs.LazyCheckers.{IsHeld, hints_taken};

use crate::lazy::{LazyChecker, LazyHintChecker};
use crate::origin::Origin;
use q_check::{CheckError, Undos, Verified};
use q_logic::{Formula, Proof, Step};
use std::alloc::Global;

/// The formula that the steps begin with, while it is held, and the checkers of the steps so far: of those without
/// proof parts, and of those with them.
#[derive(Drop)]
pub(crate) struct Judges {
    alloc: Global,
    origin: Origin,
    keeps_undo: bool,
    plain: LazyChecker,
    hinted: LazyHintChecker,
}

/// What is left where the steps lead to the output: on demand the formula that they began with, and their undo list.
#[derive(Drop)]
pub(crate) struct Judged {
    pub origin: Origin,
    pub undo: Undos,
}

impl Judges {
    pub fn new(alloc: Global, origin: Origin, keeps_undo: bool) -> Judges
        ensures { IsMade origin keeps_undo result }
    {
        Judges {
            alloc,
            origin,
            keeps_undo,
            plain: LazyChecker::empty(alloc),
            hinted: LazyHintChecker::empty(alloc),
        }
    }

    /// Takes a step if it is valid, one with a proof part if this shows it, or, where it isn't judged, if it can be made.
    pub fn step(
        &mut self,
        step: &Step,
        proof: &Option<Proof>,
        judged: bool,
    ) -> Result<(), CheckError>
        requires hints { hints_taken self.old.hinted < 2 ^ 61 }
        requires free { judged ≡ false → IsFree self.old }
        ensures behind { OnOk result
            ((j : Share) → (F : PrenexFormula) → (es : List BothEntry) → (line : ℕ)
            → IsTurn j es proof.now judged → AreBehind j F self.old es
            → AreBehind j F self.new (es ++ (line, step.now, proof.now) ∷ [])) }
        ensures refused { IfErr result (λ e.
            (j : Share) → (F : PrenexFormula) → (es : List BothEntry)
            → IsTurn j es proof.now judged → AreBehind j F self.old es
            → IsRefusedBehind j F es step.now proof.now e) }
        ensures same { OnOk result (SameTask self.old self.new) }
        ensures free { OnOk result (IsFree self.old → IsFree self.new) }
        ensures taken { OnOk result
            (hints_taken self.new.hinted ≤ hints_taken self.old.hinted + 1) }
    {
        match proof {
            None => self.step_plain(step, judged),
            Some(proof) => self.step_hinted(step, proof, judged),
        }
    }

    fn step_plain(&mut self, step: &Step, judged: bool) -> Result<(), CheckError>
        requires { judged ≡ false → IsFree self.old }
        ensures behind { OnOk result
            ((F : PrenexFormula) → IsHeld F self.old.origin → (j : Share) → (ps : List Entry)
            → (line : ℕ) → judged ≡ j (length ps)
            → IsBehindPlain self.old.keeps_undo j F ps self.old.plain
            → IsBehindPlain self.old.keeps_undo j F (ps ++ (line, step.now) ∷ []) self.new.plain) }
        ensures refused { IfErr result (λ e.
            (F : PrenexFormula) → IsHeld F self.old.origin → (j : Share) → (ps : List Entry)
            → judged ≡ j (length ps) → IsBehindPlain self.old.keeps_undo j F ps self.old.plain
            → IsBadPlain j F ps step.now e) }
        ensures free { OnOk result (IsFree self.old → IsFree self.new) }
        ensures origin { OnOk result
            ((F : PrenexFormula) → IsHeld F self.old.origin → IsHeld F self.new.origin) }
        ensures same { SameTask self.old self.new }
        ensures hinted { self.new.hinted ≡ self.old.hinted }
    {
        self.plain.fill(self.alloc, &self.origin, self.keeps_undo)?;
        self.origin.release();
        self.plain.step(step, judged)
    }

    fn step_hinted(&mut self, step: &Step, proof: &Proof, judged: bool) -> Result<(), CheckError>
        requires hints { hints_taken self.old.hinted < 2 ^ 61 }
        requires free { judged ≡ false → IsFree self.old }
        ensures behind { OnOk result
            ((F : PrenexFormula) → IsHeld F self.old.origin → (j : Share) → (hs : List (ℕ × Hinted))
            → (line : ℕ) → judged ≡ j (length hs)
            → IsBehindHinted self.old.keeps_undo j F hs self.old.hinted
            → IsBehindHinted self.old.keeps_undo j F
            (hs ++ (line, record { step = step.now; proof = proof.now }) ∷ []) self.new.hinted) }
        ensures refused { IfErr result (λ e.
            (F : PrenexFormula) → IsHeld F self.old.origin → (j : Share) → (hs : List (ℕ × Hinted))
            → judged ≡ j (length hs) → IsBehindHinted self.old.keeps_undo j F hs self.old.hinted
            → IsBadHinted j F hs step.now proof.now e) }
        ensures free { OnOk result (IsFree self.old → IsFree self.new) }
        ensures origin { OnOk result
            ((F : PrenexFormula) → IsHeld F self.old.origin → IsHeld F self.new.origin) }
        ensures same { SameTask self.old self.new }
        ensures plain { self.new.plain ≡ self.old.plain }
        ensures taken { OnOk result
            (hints_taken self.new.hinted ≡ hints_taken self.old.hinted + 1) }
    {
        self.hinted.fill(self.alloc, &self.origin, self.keeps_undo)?;
        self.origin.release();
        self.hinted.step(step, proof, judged)
    }

    /// Ends the check: blocks and clauses are those of the output, in any order.
    pub fn finish(self, output: &Formula) -> Result<Judged, CheckError>
        ensures passed { IfOk result (λ r.
            (j : Share) → (F : PrenexFormula) → (es : List BothEntry) → AreBehind j F self es
            → ArePure es → HavePassed self.keeps_undo j F es output.now r.undo) }
        ensures origin { IfOk result (λ r. r.origin ≡ self.origin) }
        ensures refused { IfErr result (λ e.
            (j : Share) → (F : PrenexFormula) → (es : List BothEntry) → AreBehind j F self es
            → ArePure es → HaveStopped j F es output.now e) }
    {
        let Judges {
            alloc,
            origin,
            keeps_undo: _,
            plain,
            hinted,
        } = self;
        if hinted.is_taken() {
            return with_origin(origin, hinted.finish(output));
        }
        let ended = finish_plain(alloc, &origin, plain, output);
        with_origin(origin, ended)
    }
}

// The end of plain steps, or of no steps at all.
fn finish_plain(
    alloc: Global,
    origin: &Origin,
    mut plain: LazyChecker,
    output: &Formula,
) -> Result<Verified, CheckError>
    ensures passed { IfOk result (λ v.
        (F : PrenexFormula) → IsHeld F origin.now → (keep : Bool) → (j : Share) → (ps : List Entry)
        → IsBehindPlain keep j F ps plain → HavePassedPlain keep j F ps output.now v.undo) }
    ensures refused { IfErr result (λ e.
        (F : PrenexFormula) → IsHeld F origin.now → (keep : Bool) → (j : Share) → (ps : List Entry)
        → IsBehindPlain keep j F ps plain → HaveStoppedPlain j F ps output.now e) }
{
    plain.fill(alloc, origin, false)?;
    plain.finish(output)
}

fn with_origin(origin: Origin, ended: Result<Verified, CheckError>) -> Result<Judged, CheckError>
    ensures ok { IfOk result (λ j. (ended ≡ Ok (record { undo = j.undo })) × (j.origin ≡ origin)) }
    ensures err { IfErr result (λ e. ended ≡ Err e) }
{
    match ended {
        Ok(verified) => Ok(Judged {
            origin,
            undo: verified.undo,
        }),
        Err(error) => Err(error),
    }
}
