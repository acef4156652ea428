//! A proof in either form: a log of either profile, or a binary proof. The first two bytes tell.
ghost use Rattle.std.specs.Prelude.{◌≡◌, ◌≤◌, ◌<◌, ◌+◌, ◌^◌, [], length, List, ℕ, IfOk, IfErr};
ghost use Rattle.q_hinted.specs.Reading.{Ends};
ghost use Rattle.q_text.specs.Words.{is_separator};
ghost use Rattle.q_binary.specs.Forms.{Begins, IsOfEnd, IsOfOne, Passes, as_entry as entry_of_step, left_of, read_proof, to_come};

use crate::reader::BinaryReader;
use q_hinted::{BothReader, Entry};
use q_log::LogError;
use q_logic::{Proof, Step};
use std::alloc::Global;
use std::marker::Model;

/// What is known of the form: nothing, that it begins with `d`, or all.
#[derive(Clone, Copy, PartialEq, Eq)]
pub enum Form {
    Unread,
    Begun,
    Text,
    Binary,
}

/// Reads a proof in either form, and hands out its steps, each with its line or its number, and with its proof part where it has one.
#[derive(Drop)]
pub struct ProofReader {
    text: BothReader,
    binary: BinaryReader,
    form: Form,
}

impl Model for ProofReader {
    ghost use Rattle.q_binary.specs.Forms.{AreBoth, ProofState};

    ghost Value = { ProofState };

    ghost view = { λ r. record { text = r.text; binary = r.binary; form = r.form } };

    ghost invariant = { λ r. AreBoth r.form r.text r.binary };
}

// A byte that divides words.
fn is_blank(byte: u8) -> bool
    ensures { result ≡ is_separator byte }
{
    matches!(byte, b'\n' | b' ' | b'\t' | b'\r')
}

// A step without a proof part.
fn as_entry(step: Option<(u64, Step)>) -> Option<Entry>
    ensures { result ≡ entry_of_step step }
{
    match step {
        Some((number, step)) => Some((number, step, None)),
        None => None,
    }
}

// A step that one byte ends.
fn of_one(answer: Result<Option<(u64, Step)>, LogError>) -> Result<(usize, Option<Entry>), LogError>
    ensures { IsOfOne answer result }
{
    match answer {
        Ok(step) => Ok((1, as_entry(step))),
        Err(error) => Err(error),
    }
}

// A step that the end makes whole.
fn of_end(answer: Result<Option<(u64, Step)>, LogError>) -> Result<Option<Entry>, LogError>
    ensures { IsOfEnd answer result }
{
    match answer {
        Ok(step) => Ok(as_entry(step)),
        Err(error) => Err(error),
    }
}

impl ProofReader {
    /// A reader of at most `bytes` bytes. Where `binary` is set, what can be either is a binary proof.
    pub fn new(alloc: Global, bytes: u64, binary: bool) -> Result<ProofReader, LogError>
        requires some { 0 < bytes }
        requires few { bytes ≤ 2 ^ 62 }
        ensures proof { IfOk result (λ r. (proof : List ℕ) → to_come r proof ≡ read_proof binary bytes proof) }
        ensures left { IfOk result (λ r. left_of r ≡ bytes) }
        ensures err { IfErr result (λ e. e ≡ LogError.NoMemory) }
    {
        let text = BothReader::new(alloc, bytes)?;
        let form = if binary { Form::Binary } else { Form::Unread };
        Ok(ProofReader {
            text,
            binary: BinaryReader::new(alloc, bytes),
            form,
        })
    }

    /// Takes some bytes at the front of the piece, of which only the last may end a step: how many they are, and the step
    /// that it ends.
    pub fn next(&mut self, piece: &[u8]) -> Result<(usize, Option<Entry>), LogError>
        requires some { 0 < length piece.now }
        ensures within { IfOk result (λ r. (0 < r.0) × (r.0 ≤ length piece.now)) }
        ensures next { Passes result self.old self.new piece.now }
        ensures left { IfOk result (λ r. left_of self.new + r.0 ≡ left_of self.old) }
    {
        match self.form {
            Form::Text => self.text.next(piece),
            Form::Binary => of_one(self.binary.push(piece[0])),
            Form::Begun => self.second(piece),
            Form::Unread => self.first(piece),
        }
    }

    // The first byte.
    fn first(&mut self, piece: &[u8]) -> Result<(usize, Option<Entry>), LogError>
        requires some { 0 < length piece.now }
        requires unread { self.old.form ≡ Form.Unread }
        ensures within { IfOk result (λ r. (0 < r.0) × (r.0 ≤ length piece.now)) }
        ensures next { Passes result self.old self.new piece.now }
        ensures left { IfOk result (λ r. left_of self.new + r.0 ≡ left_of self.old) }
    {
        match piece[0] {
            b'a' => {
                self.form = Form::Binary;
                of_one(self.binary.push(b'a'))
            }
            b'd' => self.begin(),
            _ => {
                self.form = Form::Text;
                self.text.next(piece)
            }
        }
    }

    // A `d` as the first byte: it may begin a step of either form.
    fn begin(&mut self) -> Result<(usize, Option<Entry>), LogError>
        requires unread { self.old.form ≡ Form.Unread }
        ensures begun { Begins result self.old self.new }
    {
        self.form = Form::Text;
        if let Err(error) = self.text.push(b'd') {
            return Err(error);
        }
        self.form = Form::Binary;
        if let Err(error) = self.binary.push(b'd') {
            return Err(error);
        }
        self.form = Form::Begun;
        Ok((1, None))
    }

    // The byte behind a `d`.
    fn second(&mut self, piece: &[u8]) -> Result<(usize, Option<Entry>), LogError>
        requires some { 0 < length piece.now }
        requires begun { self.old.form ≡ Form.Begun }
        ensures within { IfOk result (λ r. (0 < r.0) × (r.0 ≤ length piece.now)) }
        ensures next { Passes result self.old self.new piece.now }
        ensures left { IfOk result (λ r. left_of self.new + r.0 ≡ left_of self.old) }
    {
        if is_blank(piece[0]) {
            self.form = Form::Text;
            return self.text.next(piece);
        }
        self.form = Form::Binary;
        of_one(self.binary.push(piece[0]))
    }

    /// The step that the end of the bytes makes whole, if it makes one.
    pub fn finish(self) -> Result<Option<Entry>, LogError>
        ensures end { Ends result (to_come self []) }
    {
        let ProofReader { text, binary, form } = self;
        match form {
            Form::Binary => of_end(binary.finish()),
            _ => text.finish(),
        }
    }

    /// Keeps the memory of a step and a proof part that were handed out for later ones.
    pub fn keep(&mut self, step: Step, proof: Option<Proof>)
        ensures { self.new ≡ self.old }
    {
        match self.form {
            Form::Binary => self.binary.keep(step),
            _ => self.text.keep(step, proof),
        }
    }
}
