// Makes steps with their proof parts of tokens. Which profile a log has is told by its first token; steps themselves are made by
// the builder of plain logs.
ghost use Rattle.std.specs.Prelude.{◌≡◌, ℕ, true, false, None, Some, Ok};
ghost use Rattle.q_text.specs.Tokens.{is_zero};
ghost use Rattle.q_text.specs.Pieces.{literal_token};
ghost use Rattle.q_logic.specs.ProofParts.{begun_part};
ghost use Rattle.q_logic.specs.Prelude.{ProofStep, kind_of};
ghost use Rattle.q_log.specs.Builders.{open_in};
ghost use Rattle.q_log.specs.Grammar.{move};
ghost use Rattle.q_log.specs.Reading.{quiet};
ghost use Rattle.q_hinted.specs.Grammar.{nowhere, steps, proving, is_open_at, place_move, in_plain, in_steps, behind_step, front_move, format_move, version_move, part_move, number_in, with_zero, with_number, kind_move, profile_at, profile_behind};
ghost use Rattle.q_hinted.specs.Filled.{is_filled, is_ready, Gives};

use q_log::{LogError, StepBuilder};
use q_logic::{Kind, Lit, Proof, ProofKind, Step};
use q_text::{Token, TokenKind};
use std::alloc::Global;

/// What is handed out: the line of a step's first token, the step, and in the second profile its
/// proof part.
pub type Entry = (u64, Step, Option<Proof>);

/// The numbers of a proof part are below this one.
const END: i64 = 4_611_686_018_427_387_904;

/// What comes next in a proof part: the number of a clause, the kind of the proof, hints of the only
/// group, a target or the last 0, hints of a group with a target, or the last 0 alone.
#[derive(Clone, Copy)]
pub enum Stage {
    Number,
    Kind,
    Hints,
    Targets,
    GroupHints,
    Zero,
}

/// Where the next token stands: at the front, in the header behind `p` or `qrat`, among plain steps,
/// among steps with proof parts, or in a proof part.
#[derive(Clone, Copy)]
pub enum Phase {
    Front,
    Format,
    Version,
    Plain,
    Steps,
    Part(Stage),
}

/// Makes entries of tokens. Steps are made by the builder of plain logs; behind its 0 a step waits for
/// its proof part.
#[derive(Drop)]
pub struct EntryBuilder {
    alloc: Global,
    phase: Phase,
    steps: StepBuilder,
    waiting: Option<(u64, Step)>,
    proof: Proof,
    spare: Proof,
    ghost filled: { is_filled phase (open_in steps) waiting proof ≡ true },
}

// A number of a proof part.
#[inline(always)]
fn number_in(kind: TokenKind) -> Option<u64>
    ensures { result ≡ number_in kind }
{
    match kind {
        TokenKind::Number(number) if (0..END).contains(&number) => Some(number as u64),
        _ => None,
    }
}

impl EntryBuilder {
    ghost use Rattle.q_hinted.specs.Builders.{place_of};

    pub fn new(alloc: Global) -> EntryBuilder
        ensures { place_of result ≡ nowhere }
    {
        EntryBuilder {
            alloc,
            phase: Phase::Front,
            steps: StepBuilder::new(alloc),
            waiting: None,
            proof: Proof::new(alloc, ProofKind::Nothing, 0),
            spare: Proof::new(alloc, ProofKind::Nothing, 0),
        }
    }

    /// The entry that the token makes whole.
    #[inline(always)]
    pub fn take(&mut self, token: Token) -> Result<Option<Entry>, LogError>
        ensures gives { Gives result (place_move (place_of self.old) token)
            (place_of self.new) token.line }
        ensures profile { profile_at (place_of self.new)
            ≡ profile_behind (place_of self.old) token.kind }
    {
        if token.kind.is_zero() {
            return self.zero(token);
        }
        match self.add(token) {
            Ok(()) => Ok(None),
            Err(error) => Err(error),
        }
    }

    /// Takes a token other than 0, which makes no entry whole: so its answer is small.
    #[inline(always)]
    pub fn add(&mut self, token: Token) -> Result<(), LogError>
        requires { is_zero token.kind ≡ false }
        ensures gives { Gives (quiet result) (place_move (place_of self.old) token)
            (place_of self.new) token.line }
        ensures profile { profile_at (place_of self.new)
            ≡ profile_behind (place_of self.old) token.kind }
    {
        match self.phase {
            Phase::Plain | Phase::Steps => self.steps.add(token),
            Phase::Part(stage) => self.part(stage, token),
            Phase::Front => self.front(token),
            Phase::Format => self.format(token),
            Phase::Version => self.version(token),
        }
    }

    /// Takes a literal, or a number of a proof part.
    #[inline(always)]
    pub fn add_literal(&mut self, lit: Lit, line: u64) -> Result<(), LogError>
        ensures gives { Gives (quiet result) (place_move (place_of self.old)
            (literal_token lit line)) (place_of self.new) line }
    {
        match self.phase {
            Phase::Plain | Phase::Steps => self.steps.add_literal(lit, line),
            _ => self.add(Token {
                kind: TokenKind::Number(lit.number() as i64),
                line,
            }),
        }
    }

    /// The entry that a 0 makes whole.
    pub fn zero(&mut self, token: Token) -> Result<Option<Entry>, LogError>
        requires { is_zero token.kind ≡ true }
        ensures gives { Gives result (place_move (place_of self.old) token)
            (place_of self.new) token.line }
        ensures profile { profile_at (place_of self.new)
            ≡ profile_behind (place_of self.old) token.kind }
    {
        match self.phase {
            Phase::Plain => self.end_plain(token),
            Phase::Steps => self.end_step(token),
            Phase::Part(stage) => self.end_part(stage, token.line),
            Phase::Front => {
                self.phase = Phase::Plain;
                self.end_plain(token)
            }
            Phase::Format | Phase::Version => Err(LogError::BadLine { line: token.line }),
        }
    }

    fn front(&mut self, token: Token) -> Result<(), LogError>
        requires phase { self.old.phase ≡ Phase.Front }
        requires other { is_zero token.kind ≡ false }
        ensures gives { Gives (quiet result) (front_move token token.kind)
            (place_of self.new) token.line }
        ensures profile { profile_at (place_of self.new) ≡ profile_behind nowhere token.kind }
    {
        match token.kind {
            TokenKind::P => {
                self.phase = Phase::Format;
                Ok(())
            }
            _ => {
                self.phase = Phase::Plain;
                self.steps.add(token)
            }
        }
    }

    fn format(&mut self, token: Token) -> Result<(), LogError>
        requires { self.old.phase ≡ Phase.Format }
        ensures gives { Gives (quiet result) (format_move token.kind)
            (place_of self.new) token.line }
        ensures profile { profile_at (place_of self.new) ≡ 2 }
    {
        match token.kind {
            TokenKind::Qrat => {
                self.phase = Phase::Version;
                Ok(())
            }
            _ => Err(LogError::BadLine { line: token.line }),
        }
    }

    fn version(&mut self, token: Token) -> Result<(), LogError>
        requires { self.old.phase ≡ Phase.Version }
        ensures gives { Gives (quiet result) (version_move token.kind)
            (place_of self.new) token.line }
        ensures profile { profile_at (place_of self.new) ≡ 2 }
    {
        match token.kind {
            TokenKind::Number(2) => {
                self.phase = Phase::Steps;
                Ok(())
            }
            _ => Err(LogError::BadLine { line: token.line }),
        }
    }

    fn end_plain(&mut self, token: Token) -> Result<Option<Entry>, LogError>
        requires phase { self.old.phase ≡ Phase.Plain }
        requires zero { is_zero token.kind ≡ true }
        ensures gives { Gives result (in_plain (move (open_in self.old.steps) token))
            (place_of self.new) token.line }
        ensures profile { profile_at (place_of self.new) ≡ 1 }
    {
        match self.steps.zero(token) {
            Ok(Some((line, step))) => Ok(Some((line, step, None))),
            Ok(None) => Ok(None),
            Err(error) => Err(error),
        }
    }

    fn end_step(&mut self, token: Token) -> Result<Option<Entry>, LogError>
        requires phase { self.old.phase ≡ Phase.Steps }
        requires zero { is_zero token.kind ≡ true }
        ensures gives { Gives result (in_steps (move (open_in self.old.steps) token))
            (place_of self.new) token.line }
        ensures profile { profile_at (place_of self.new) ≡ 2 }
    {
        match self.steps.zero(token) {
            Ok(Some((line, step))) => Ok(self.behind(line, step)),
            Ok(None) => Ok(None),
            Err(error) => Err(error),
        }
    }

    // A step's 0 has come: the step waits for its proof part, if it has one.
    fn behind(&mut self, line: u64, step: Step) -> Option<Entry>
        requires phase { self.old.phase ≡ Phase.Steps }
        requires idle { open_in self.old.steps ≡ None }
        ensures gives { Gives (Ok result) (behind_step (kind_of step) line step)
            (place_of self.new) line }
        ensures profile { profile_at (place_of self.new) ≡ 2 }
    {
        match step.kind() {
            Kind::Add => self.wait(Stage::Kind, line, step),
            Kind::Delete | Kind::Drop => self.wait(Stage::Number, line, step),
            Kind::Fresh | Kind::Remove => {
                let proof = Proof::new(self.alloc, ProofKind::Nothing, 0);
                Some((line, step, Some(proof)))
            }
        }
    }

    fn wait(&mut self, stage: Stage, line: u64, step: Step) -> Option<Entry>
        requires stage { is_ready stage (begun_part ProofKind.Nothing 0) ≡ true }
        requires idle { open_in self.old.steps ≡ None }
        ensures none { result ≡ None }
        ensures place { place_of self.new ≡ proving line step stage
            (begun_part ProofKind.Nothing 0) }
    {
        self.proof.restart(ProofKind::Nothing, 0);
        self.waiting = Some((line, step));
        self.phase = Phase::Part(stage);
        None
    }

    // A number of a proof part, other than 0.
    #[inline(always)]
    fn part(&mut self, stage: Stage, token: Token) -> Result<(), LogError>
        requires phase { self.old.phase ≡ Phase.Part stage }
        requires other { is_zero token.kind ≡ false }
        ensures gives { (n : ℕ) → (s : ProofStep) → self.old.waiting ≡ Some (n, s) →
            Gives (quiet result) (part_move n s self.old.proof stage (number_in token.kind))
            (place_of self.new) token.line }
        ensures profile { profile_at (place_of self.new) ≡ 2 }
    {
        match number_in(token.kind) {
            None => Err(LogError::BadLine { line: token.line }),
            Some(number) => self.number(stage, number, token.line),
        }
    }

    fn end_part(&mut self, stage: Stage, line: u64) -> Result<Option<Entry>, LogError>
        requires { self.old.phase ≡ Phase.Part stage }
        ensures gives { (n : ℕ) → (s : ProofStep) → self.old.waiting ≡ Some (n, s) →
            Gives result (with_zero n s self.old.proof stage) (place_of self.new) line }
        ensures profile { profile_at (place_of self.new) ≡ 2 }
    {
        match stage {
            Stage::Hints | Stage::Targets | Stage::Zero => Ok(self.hand_out()),
            Stage::GroupHints => {
                self.phase = Phase::Part(Stage::Targets);
                Ok(None)
            }
            Stage::Number | Stage::Kind => Err(LogError::BadLine { line }),
        }
    }

    // The step that waits, with its proof part.
    fn hand_out(&mut self) -> Option<Entry>
        requires idle { open_in self.old.steps ≡ None }
        ensures entry { (n : ℕ) → (s : ProofStep) → self.old.waiting ≡ Some (n, s) →
            result ≡ Some (n, s, Some self.old.proof) }
        ensures place { place_of self.new ≡ steps None }
    {
        let next = std::mem::replace(
            &mut self.spare,
            Proof::new(self.alloc, ProofKind::Nothing, 0),
        );
        self.phase = Phase::Steps;
        let proof = std::mem::replace(&mut self.proof, next);
        match self.waiting.take() {
            Some((line, step)) => Some((line, step, Some(proof))),
            None => None,
        }
    }

    fn number(&mut self, stage: Stage, number: u64, line: u64) -> Result<(), LogError>
        requires { self.old.phase ≡ Phase.Part stage }
        ensures gives { (n : ℕ) → (s : ProofStep) → self.old.waiting ≡ Some (n, s) →
            Gives (quiet result) (with_number n s self.old.proof number stage)
            (place_of self.new) line }
        ensures profile { profile_at (place_of self.new) ≡ 2 }
    {
        match stage {
            Stage::Hints | Stage::GroupHints => {
                self.proof.hint(number)?;
                Ok(())
            }
            Stage::Targets => {
                self.proof.begin_group(number)?;
                self.phase = Phase::Part(Stage::GroupHints);
                Ok(())
            }
            Stage::Number => {
                self.proof.restart(ProofKind::Nothing, number);
                self.phase = Phase::Part(Stage::Kind);
                Ok(())
            }
            Stage::Kind => self.kind(number, line),
            Stage::Zero => Err(LogError::BadLine { line }),
        }
    }

    fn kind(&mut self, kind: u64, line: u64) -> Result<(), LogError>
        requires { self.old.phase ≡ Phase.Part Stage.Kind }
        ensures gives { (n : ℕ) → (s : ProofStep) → self.old.waiting ≡ Some (n, s) →
            Gives (quiet result) (kind_move n s self.old.proof kind) (place_of self.new) line }
        ensures profile { profile_at (place_of self.new) ≡ 2 }
    {
        let (kind, stage) = match kind {
            1 => (ProofKind::Implied, Stage::Hints),
            2 => (ProofKind::Pivot, Stage::Targets),
            3 => (ProofKind::Reach, Stage::Zero),
            _ => return Err(LogError::BadLine { line }),
        };
        let number = self.proof.number();
        self.proof.restart(kind, number);
        self.phase = Phase::Part(stage);
        Ok(())
    }

    /// A header, a step or a proof part is left open.
    pub fn is_open(&self) -> bool
        ensures { result ≡ is_open_at (place_of self.now) }
    {
        match self.phase {
            Phase::Front => false,
            Phase::Plain | Phase::Steps => self.steps.is_open(),
            Phase::Format | Phase::Version | Phase::Part(_) => true,
        }
    }

    /// 2 exactly where the first token was `p`, else 1.
    pub fn profile(&self) -> u8
        ensures { result ≡ profile_at (place_of self.now) }
    {
        match self.phase {
            Phase::Front | Phase::Plain => 1,
            Phase::Format | Phase::Version | Phase::Steps | Phase::Part(_) => 2,
        }
    }

    /// Keeps the memory of an entry for a later one.
    pub fn keep(&mut self, step: Step, proof: Option<Proof>)
        ensures { place_of self.new ≡ place_of self.old }
    {
        self.steps.keep(step.into_lits());
        if let Some(proof) = proof {
            self.spare = proof;
        }
    }
}
