//! The names of inputs and outputs.
ghost use Rattle.std.specs.Prelude.{◌≡◌, IfOk, replicate};
ghost use Rattle.q_aiger.specs.Lines.{words};
ghost use Rattle.q_aiger.specs.Symbols.{is_free_name, with_name, all_named, named_symbol, lone_symbol, symbol_of};
ghost use Rattle.q_aiger.specs.Naming.{symbol_view};
ghost use Rattle.q_aiger.specs.Taking.{Takes};

use crate::error::{AigerError, Cause};
use crate::lines::{next_word, number};
use q_logic::NoMemory;
use std::alloc::Global;
use std::collections::HashSet;
use std::marker::Model;

// No name is greater.
const MOST: u64 = 16_777_215;

/// Names by their places, 0 where a place has none so far.
#[derive(Drop)]
pub struct Names {
    names: Vec<u32>,
    used: HashSet<u32>,
}

impl Model for Names {
    ghost use Rattle.std.specs.Prelude.{List, ℕ};
    ghost use Rattle.q_aiger.specs.Naming.{AreUsed};

    ghost Value = { List ℕ };

    ghost view = { λ n. n.names.items };

    ghost invariant = { λ n. AreUsed n.used n.names.items };
}

impl Names {
    ghost use Rattle.q_aiger.specs.Symbols.{AreApart};

    /// So many places without a name.
    pub fn new(alloc: Global, places: usize) -> Result<Names, NoMemory>
        ensures { IfOk result (λ n. n ≡ replicate places 0) }
    {
        let mut names = Vec::new(alloc);
        names.resize(places, 0)?;
        Ok(Names {
            names,
            used: HashSet::new(alloc),
        })
    }

    /// Gives a place its name, by line `at`.
    pub fn give(&mut self, place: u64, name: u64, at: u64) -> Result<(), AigerError>
        ensures { Takes result at (with_name self.old place name) self.new }
    {
        if !self.is_free(place, name) {
            return Err(AigerError::Refused {
                line: at,
                cause: Cause::BadSymbol as u8,
            });
        }
        if self.used.insert(name as u32).is_err() {
            return Err(AigerError::NoMemory);
        }
        self.names[place as usize] = name as u32;
        Ok(())
    }

    // Whether the place may get the name.
    fn is_free(&self, place: u64, name: u64) -> bool
        ensures { result ≡ is_free_name self.now place name }
    {
        if place >= self.names.len() as u64 || name == 0 || name > MOST {
            return false;
        }
        self.names[place as usize] == 0 && !self.used.contains(&(name as u32))
    }

    /// Whether each place has its name.
    pub fn are_all(&self) -> bool
        ensures { result ≡ all_named self.now }
    {
        !self.names.contains(&0)
    }

    /// The names, each of which stands once.
    pub fn as_slice(&self) -> &[u32]
        ensures value { result.now ≡ self.now }
        ensures apart { AreApart self.now }
    {
        &self.names
    }
}

/// What a symbol line says: nothing, that a comment follows, or the name of a place.
#[derive(Clone, Copy)]
pub enum Symbol {
    Nothing,
    Comment,
    Input(u64, u64),
    Output(u64, u64),
    Strange,
}

/// What a symbol line says.
pub fn read_symbol(line: &[u8]) -> Symbol
    ensures { symbol_view result ≡ symbol_of (words line.now) }
{
    let Some((word, rest)) = next_word(line) else {
        return Symbol::Nothing;
    };
    let Some((name, rest)) = next_word(rest) else {
        return lone(word);
    };
    if next_word(rest).is_some() {
        return Symbol::Strange;
    }
    named(word, number(name))
}

// A line of one word.
fn lone(word: &[u8]) -> Symbol
    ensures { symbol_view result ≡ lone_symbol word.now }
{
    if word.len() == 1 && word[0] == b'c' {
        return Symbol::Comment;
    }
    Symbol::Strange
}

// A line of two words.
fn named(word: &[u8], name: Option<u64>) -> Symbol
    ensures { symbol_view result ≡ named_symbol word.now name }
{
    let Some((letter, place)) = word.split_first() else {
        return Symbol::Strange;
    };
    let (Some(place), Some(name)) = (number(place), name) else {
        return Symbol::Strange;
    };
    match *letter {
        b'i' => Symbol::Input(place, name),
        b'o' => Symbol::Output(place, name),
        _ => Symbol::Strange,
    }
}
