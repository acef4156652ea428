//! A binary proof, byte by byte.
ghost use Rattle.std.specs.Prelude.{◌≡◌, ◌≤◌, ◌+◌, ◌^◌, [], ◌∷◌, List, ℕ, Some, Err, IfOk};
ghost use Rattle.q_log.specs.declared.error.LogError.{LogError as AnyError};
ghost use Rattle.q_log.specs.Reading.{Ends, Leads};
ghost use Rattle.q_binary.specs.BinaryProofs.{read};
ghost use Rattle.q_binary.specs.Reading.{start, to_come, transition, Answers};

use crate::builder::ByteBuilder;
use q_log::LogError;
use q_logic::Step;
use std::alloc::Global;
use std::marker::Model;

/// Reads a binary proof byte by byte and hands out its steps, each at the byte that ends it, with its number from 1 on.
#[derive(Drop)]
pub struct BinaryReader {
    builder: ByteBuilder,
    number: u64,
    left: u64,
    refused: Option<LogError>,
}

impl Model for BinaryReader {
    ghost use Rattle.std.specs.Prelude.{◌≤◌, ◌+◌, ◌^◌};
    ghost use Rattle.q_binary.specs.Reading.{BinaryState};
    ghost use Rattle.q_binary.specs.Builders.{place_in};

    ghost Value = { BinaryState };

    ghost view = { λ r. record {
      place = place_in r.builder;
      number = r.number;
      left = r.left;
      refused = r.refused;
    } };

    ghost invariant = { λ r. r.number + r.left ≤ 2 ^ 62 + 1 };
}

impl BinaryReader {
    /// A reader of at most `bytes` bytes.
    pub fn new(alloc: Global, bytes: u64) -> BinaryReader
        requires { bytes ≤ 2 ^ 62 }
        ensures start { result ≡ start bytes }
        ensures proof { (proof : List ℕ) → to_come result proof ≡ read bytes proof }
    {
        BinaryReader {
            builder: ByteBuilder::new(alloc),
            number: 1,
            left: bytes,
            refused: None,
        }
    }

    /// The step that this byte ends, if it ends one, and its number.
    pub fn push(&mut self, byte: u8) -> Result<Option<(u64, Step)>, LogError>
        ensures transition { Answers result self.new (transition self.old byte) }
        ensures next { (rest : List ℕ) → Leads result (to_come self.old (byte ∷ rest))
            (to_come self.new rest) }
        ensures left { IfOk result (λ s. self.new.left + 1 ≡ self.old.left) }
        ensures again { (e : AnyError) → self.old.refused ≡ Some e → (result ≡ Err e)
            × (self.new ≡ self.old) }
        ensures stops { (e : AnyError) → result ≡ Err e → self.new.refused ≡ Some e }
    {
        if let Some(error) = self.refused {
            return Err(error);
        }
        let number = self.number;
        if self.left == 0 {
            let error = LogError::Limit { line: number };
            self.refused = Some(error);
            return Err(error);
        }
        self.left -= 1;
        match self.builder.take(byte, number) {
            Ok(None) => Ok(None),
            Ok(Some(step)) => {
                self.number = number + 1;
                Ok(Some(step))
            }
            Err(error) => {
                self.refused = Some(error);
                Err(error)
            }
        }
    }

    /// What the end of the bytes is: no step ends there.
    pub fn finish(self) -> Result<Option<(u64, Step)>, LogError>
        ensures end { Ends result (to_come self []) }
        ensures again { (e : AnyError) → self.refused ≡ Some e → result ≡ Err e }
    {
        if let Some(error) = self.refused {
            return Err(error);
        }
        if self.builder.is_open() {
            return Err(LogError::BadLine { line: self.number });
        }
        Ok(None)
    }

    /// Keeps the memory of a step that was handed out for a later one.
    pub fn keep(&mut self, step: Step)
        ensures { self.new ≡ self.old }
    {
        self.builder.keep(step.into_lits());
    }
}
