// Reads a resolution proof (QRP) from bytes that come in pieces, up to its verdict. How they are cut makes no difference.
ghost use Rattle.std.specs.Prelude.{◌≡◌, ℕ, ◌≤◌, ◌^◌, List, [], Err, IfOk, IfErr, OnOk, true, false};
ghost use Rattle.q_qrp.specs.declared.reader.Standing.{Standing};
ghost use Rattle.q_qrp.specs.Causes.{no_verdict};
ghost use Rattle.q_qrp.specs.Reading.{step_of};
ghost use Rattle.q_qrp.specs.Scanning.{Answers, Feeds, HasRead, byte_step, fed, goes_on, has_finished, outcome, proof_in, word_step};
ghost use Rattle.q_qrp.specs.Offences.{ProofOf, ReadsOn, RefusesAll, RefusesBehind, StaysWithin, at_last, at_line, proof_or};

use crate::builder::Builder;
use crate::error::{Cause, TraceError};
use crate::trace::Trace;
use crate::words::{Spoken, Words};
use std::alloc::Global;
use std::marker::Model;

/// Whether the reader still reads, has read the verdict, or for what it stopped.
#[derive(Clone, Copy)]
pub enum Standing {
    Reading,
    Finished,
    Stopped(TraceError),
}

/// Reads a trace from bytes that come in pieces. How they are cut makes no difference.
#[derive(Drop)]
pub struct TraceReader {
    most: u64,
    words: Words,
    taken: u64,
    builder: Builder,
    standing: Standing,
}

impl Model for TraceReader {
    ghost use Rattle.q_qrp.specs.Scanning.{Scan, IsSound};

    ghost Value = { Scan };

    ghost view = { λ r. record {
      most = r.most;
      words = r.words;
      taken = r.taken;
      builder = r.builder;
      standing = r.standing;
    } };

    ghost invariant = { λ r. IsSound (record {
      most = r.most;
      words = r.words;
      taken = r.taken;
      builder = r.builder;
      standing = r.standing;
    }) };
}

impl TraceReader {
    /// A reader of at most `bytes` bytes.
    pub fn new(alloc: Global, bytes: u64) -> TraceReader
        requires { bytes ≤ 2 ^ 62 }
        ensures { HasRead bytes [] result }
    {
        TraceReader {
            most: bytes,
            words: Words::new(),
            taken: 0,
            builder: Builder::new(alloc),
            standing: Standing::Reading,
        }
    }

    /// Reads on. It refuses only for an offence in the bytes so far, which is then that of every text that begins with
    /// them, and gives the same answer from then on. Behind the verdict it reads nothing.
    pub fn feed(&mut self, piece: &[u8]) -> Result<(), TraceError>
        ensures read { OnOk result (ReadsOn self.old piece.now self.new) }
        ensures refused { RefusesBehind result self.old piece.now }

        // Before the verdict it has not passed the limit on bytes.
        ensures within { OnOk result (has_finished self.new.standing ≡ false
            → StaysWithin self.old piece.now) }

        // What has stopped the reader stops it for good.
        ensures stopped { IfErr result (λ e. self.new.standing ≡ Standing.Stopped e) }
        ensures lasting_answer { (e : TraceError) → self.old.standing ≡ Standing.Stopped e
            → result ≡ Err e }
        ensures lasting_state { (e : TraceError) → self.old.standing ≡ Standing.Stopped e
            → self.new ≡ self.old }
    {
        self.feed_bytes(piece)
    }

    /// The proof of all bytes, or their first offence.
    pub fn finish(self) -> Result<Trace, TraceError>
        ensures proof { IfOk result (λ t. ProofOf self t) }
        ensures refused { RefusesAll result self }
        ensures lasting { (e : TraceError) → self.standing ≡ Standing.Stopped e → result ≡ Err e }
    {
        self.proof()
    }

    /// The verdict has been read.
    pub fn is_finished(&self) -> bool
        ensures value { result ≡ has_finished self.now.standing }

        // What follows changes nothing.
        ensures lasting { result ≡ true → (rest : List ℕ) → ReadsOn self.now rest self.now }
    {
        matches!(self.standing, Standing::Finished)
    }

    fn feed_bytes(&mut self, piece: &[u8]) -> Result<(), TraceError>
        ensures fed { Feeds result (fed self.old piece.now) self.new }
        ensures lasting_answer { (e : TraceError) → self.old.standing ≡ Standing.Stopped e
            → result ≡ Err e }
        ensures lasting_state { (e : TraceError) → self.old.standing ≡ Standing.Stopped e
            → self.new ≡ self.old }
    {
        if let Standing::Stopped(error) = self.standing {
            return Err(error);
        }
        self.push_all(piece)
    }

    fn push_all(&mut self, piece: &[u8]) -> Result<(), TraceError>
        requires { goes_on self.old.standing ≡ true }
        ensures { Feeds result (fed self.old piece.now) self.new }
    {
        for byte in piece {
            if self.is_finished() {
                return Ok(());
            }
            self.push(*byte)?;
        }
        Ok(())
    }

    fn proof(self) -> Result<Trace, TraceError>
        ensures exact { Answers result (outcome self) }
        ensures lasting { (e : TraceError) → self.standing ≡ Standing.Stopped e → result ≡ Err e }
    {
        match self.standing {
            Standing::Stopped(error) => Err(error),
            Standing::Finished => trace_of(self.builder, self.words.line()),
            Standing::Reading => self.close(),
        }
    }

    fn close(self) -> Result<Trace, TraceError>
        requires { self.standing ≡ Standing.Reading }
        ensures { Answers result (outcome self) }
    {
        let TraceReader {
            most: _,
            words,
            taken: _,
            builder,
            standing: _,
        } = self;
        let line = words.line();
        match words.finish() {
            None => trace_of(builder, line),
            Some(word) => trace_with(builder, word, line),
        }
    }

    fn push(&mut self, byte: u8) -> Result<(), TraceError>
        requires { self.old.standing ≡ Standing.Reading }
        ensures { Feeds result (byte_step self.old byte) self.new }
    {
        if self.taken >= self.most {
            let line = self.words.line();
            let cause = Cause::Limit.number();
            return self.stop(TraceError::Refused { line, cause });
        }
        self.taken += 1;
        match self.words.push(byte) {
            None => Ok(()),
            Some(word) => self.take(word),
        }
    }

    #[inline(always)]
    fn take(&mut self, word: Spoken) -> Result<(), TraceError>
        requires { self.old.standing ≡ Standing.Reading }
        ensures { Feeds result (word_step self.old (Some word)) self.new }
    {
        match self.builder.step(word) {
            Ok(()) => {
                if self.builder.is_done() {
                    self.standing = Standing::Finished;
                }
                Ok(())
            }
            Err(fault) => {
                let error = fault.at(word.token.line);
                self.standing = Standing::Stopped(error);
                Err(error)
            }
        }
    }

    fn stop(&mut self, error: TraceError) -> Result<(), TraceError>
        ensures new { self.new ≡ record self.old { standing = Standing.Stopped error } }
        ensures result { result ≡ Err error }
    {
        self.standing = Standing::Stopped(error);
        Err(error)
    }
}

// The trace where the last word has still to be taken.
fn trace_with(builder: Builder, word: Spoken, line: u64) -> Result<Trace, TraceError>
    ensures { Answers result
        (at_last no_verdict line (at_line word.token.line (step_of builder word))) }
{
    let mut builder = builder;
    match builder.step(word) {
        Ok(()) => trace_of(builder, line),
        Err(fault) => Err(fault.at(word.token.line)),
    }
}

fn trace_of(builder: Builder, line: u64) -> Result<Trace, TraceError>
    ensures { Answers result (proof_or no_verdict line (proof_in builder)) }
{
    match builder.finish() {
        Some(trace) => Ok(trace),
        None => Err(TraceError::Refused {
            line,
            cause: Cause::NoVerdict.number(),
        }),
    }
}
