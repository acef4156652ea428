//! The lines of inputs, outputs and gates.
ghost use Rattle.std.specs.Prelude.{◌≡◌, ◌<◌, ◌≤◌, ◌++◌, ◌∷◌, [], None, OnOk, is_some, length};
ghost use Rattle.q_aiger.specs.Lines.{words};
ghost use Rattle.q_aiger.specs.Headers.{header_view};
ghost use Rattle.q_aiger.specs.Items.{no_items, place_of, is_left as left, is_right as right, one_number as one, three_numbers as three, with_input, with_output, with_gate, with_line};
ghost use Rattle.q_aiger.specs.Taking.{Takes};

use crate::error::{AigerError, Cause};
use crate::header::Header;
use crate::lines::{next_word, number};
use q_logic::NoMemory;
use std::alloc::Global;
use std::collections::HashMap;
use std::marker::Model;

// So many variables may be defined.
const MOST: usize = 4_294_967_295;

/// What the lines have said: the variables that are defined, those of inputs first, the literals of outputs, and
/// the operands of gates.
#[derive(Drop)]
pub struct Items {
    vars: Vec<u32>,
    places: HashMap<u32, u32>,
    outputs: Vec<u32>,
    operands: Vec<(u32, u32)>,
}

impl Model for Items {
    ghost use Rattle.q_aiger.specs.Items.{Items as ItemsView};
    ghost use Rattle.q_aiger.specs.Taking.{IsIndexOf};

    ghost Value = { ItemsView };

    ghost view = { λ i. record {
      defined = i.vars.items;
      outputs = i.outputs.items;
      operands = i.operands.items;
    } };

    ghost invariant = { λ i. IsIndexOf i.places i.vars.items };
}

impl Items {
    pub fn new(alloc: Global) -> Items
        ensures { result ≡ no_items }
    {
        Items {
            vars: Vec::new(alloc),
            places: HashMap::new(alloc),
            outputs: Vec::new(alloc),
            operands: Vec::new(alloc),
        }
    }

    /// How many variables are defined.
    pub fn defined(&self) -> usize
        ensures { result ≡ length self.now.defined }
    {
        self.vars.len()
    }

    /// The literals of the outputs.
    pub fn outputs(&self) -> &[u32]
        ensures { result.now ≡ self.now.outputs }
    {
        &self.outputs
    }

    /// The operands of the gates.
    pub fn operands(&self) -> &[(u32, u32)]
        ensures { result.now ≡ self.now.operands }
    {
        &self.operands
    }

    /// Where the variable is defined.
    pub fn place(&self, var: u32) -> Option<u32>
        ensures { result ≡ place_of self.now.defined var }
    {
        self.places.get(&var).copied()
    }

    fn define(&mut self, var: u32) -> Result<(), NoMemory>
        requires { place_of self.old.defined var ≡ None }
        ensures { OnOk result (self.new ≡ record self.old {
          defined = self.old.defined ++ var
              ∷ [];
        }) }
    {
        let place = self.vars.len();
        if place >= MOST {
            return Err(NoMemory);
        }
        self.vars.reserve(1)?;
        self.places.insert(var, place as u32)?;
        self.vars.push_reserved(var);
        Ok(())
    }

    fn push_output(&mut self, lit: u32) -> Result<(), NoMemory>
        ensures { OnOk result (self.new ≡ record self.old {
          outputs = self.old.outputs ++ lit
              ∷ [];
        }) }
    {
        self.outputs.push(lit)?;
        Ok(())
    }

    fn push_operands(&mut self, left: u32, right: u32) -> Result<(), NoMemory>
        ensures { OnOk result (self.new ≡ record self.old {
          operands = self.old.operands
              ++ (left, right) ∷ [];
        }) }
    {
        self.operands.push((left, right))?;
        Ok(())
    }

    /// Takes the next line, of this number.
    pub fn take(&mut self, header: Header, line: &[u8], at: u64) -> Result<(), AigerError>
        requires { header.max ≤ 268435456 }
        ensures { Takes result at (with_line (header_view header) self.old (words line.now))
            self.new }
    {
        if (self.vars.len() as u64) < header.inputs {
            return self.take_input(header, one_number(line), at);
        }
        if (self.outputs.len() as u64) < header.outputs {
            return self.take_output(header, one_number(line), at);
        }
        self.take_gate(header, three_numbers(line), at)
    }

    fn take_input(&mut self, header: Header, lit: Option<u64>, at: u64) -> Result<(), AigerError>
        requires { header.max ≤ 268435456 }
        ensures { Takes result at (with_input (header_view header) self.old lit) self.new }
    {
        let Some(lit) = lit else {
            return Err(bad_token(at));
        };
        if !is_left(header.max, lit) {
            return Err(bad_token(at));
        }
        let var = (lit / 2) as u32;
        if self.place(var).is_some() {
            return Err(defined_twice(at));
        }
        self.define(var)?;
        Ok(())
    }

    fn take_output(&mut self, header: Header, lit: Option<u64>, at: u64) -> Result<(), AigerError>
        requires { header.max ≤ 268435456 }
        ensures { Takes result at (with_output (header_view header) self.old lit) self.new }
    {
        let Some(lit) = lit else {
            return Err(bad_token(at));
        };
        if !is_right(header.max, lit) {
            return Err(bad_token(at));
        }
        self.push_output(lit as u32)?;
        Ok(())
    }

    fn take_gate(
        &mut self,
        header: Header,
        lits: Option<(u64, u64, u64)>,
        at: u64,
    ) -> Result<(), AigerError>
        requires { header.max ≤ 268435456 }
        ensures { Takes result at (with_gate (header_view header) self.old lits) self.new }
    {
        let Some((lit, left, right)) = lits else {
            return Err(bad_token(at));
        };
        if !is_left(header.max, lit)
            || !is_right(header.max, left)
            || !is_right(header.max, right)
        {
            return Err(bad_token(at));
        }
        let var = (lit / 2) as u32;
        if self.place(var).is_some() {
            return Err(defined_twice(at));
        }
        self.define(var)?;
        self.push_operands(left as u32, right as u32)?;
        Ok(())
    }
}

fn bad_token(line: u64) -> AigerError
    ensures { result ≡ AigerError.Refused line 2 }
{
    AigerError::Refused {
        line,
        cause: Cause::BadToken as u8,
    }
}

fn defined_twice(line: u64) -> AigerError
    ensures { result ≡ AigerError.Refused line 4 }
{
    AigerError::Refused {
        line,
        cause: Cause::DefinedTwice as u8,
    }
}

// A literal that may be defined.
fn is_left(max: u64, lit: u64) -> bool
    requires { max ≤ 268435456 }
    ensures value { result ≡ left max lit }
{
    lit >= 2 && lit <= 2 * max && lit % 2 == 0
}

// A literal that may be used.
fn is_right(max: u64, lit: u64) -> bool
    requires { max ≤ 268435456 }
    ensures { result ≡ right max lit }
{
    lit <= 2 * max + 1
}

fn one_number(line: &[u8]) -> Option<u64>
    ensures { result ≡ one (words line.now) }
{
    let (word, rest) = next_word(line)?;
    if next_word(rest).is_some() {
        return None;
    }
    number(word)
}

fn three_numbers(line: &[u8]) -> Option<(u64, u64, u64)>
    ensures { result ≡ three (words line.now) }
{
    let (a, rest) = next_word(line)?;
    let (b, rest) = next_word(rest)?;
    let (c, rest) = next_word(rest)?;
    if next_word(rest).is_some() {
        return None;
    }
    Some((number(a)?, number(b)?, number(c)?))
}
