//! Moves as a text: a line for each, with a rule's word and then the numbers of clauses or variables, and the literals, that say where
//! it is taken, with one space before each: `cut 0 -2`. A line may be empty. Whatever else a line has, it is wrong.
ghost use Rattle.std.specs.Prelude.{◌≡◌, ◌<◌, length, option_map};
ghost use Rattle.std.specs.Str.{bytes_eq};
ghost use Rattle.q_sched.specs.Moves.{target_of};
ghost use Rattle.q_guides.specs.MoveTexts.{IsFirstLine, IsOther, is_right as spec_is_right, rule_of as spec_rule_of, target_by, target_in, wrong_line as spec_wrong_line};

use crate::fields::{
    halves, literal, number, number_and_literal, two_literals, two_numbers, two_numbers_and_literal,
};
use q_blocked::Target as Block;
use q_eliminate::Target as Eliminate;
use q_equiv::Target as Merge;
use q_expand::Target as Expand;
use q_reduce::Target as Reduce;
use q_sched::Move;
use q_subsume::Target as Subsume;

// The rules by their words.
#[derive(Clone, Copy)]
pub(crate) enum Rule {
    Tautology,
    Unit,
    Cut,
    Pure,
    Subsumed,
    Strengthen,
    Merge,
    Blocked,
    BlockedForall,
    Cover,
    Eliminate,
    Expand,
}

fn is(word: &[u8], name: &str) -> bool
    ensures { result ≡ bytes_eq word.now name.now }
{
    word == name.as_bytes()
}

fn rule_of(word: &[u8]) -> Option<Rule>
    ensures { result ≡ spec_rule_of word.now }
{
    if is(word, "tautology") {
        return Some(Rule::Tautology);
    }
    if is(word, "unit") {
        return Some(Rule::Unit);
    }
    if is(word, "cut") {
        return Some(Rule::Cut);
    }
    if is(word, "pure") {
        return Some(Rule::Pure);
    }
    if is(word, "subsumed") {
        return Some(Rule::Subsumed);
    }
    if is(word, "strengthen") {
        return Some(Rule::Strengthen);
    }
    if is(word, "merge") {
        return Some(Rule::Merge);
    }
    if is(word, "blocked") {
        return Some(Rule::Blocked);
    }
    if is(word, "blocked-forall") {
        return Some(Rule::BlockedForall);
    }
    if is(word, "cover") {
        return Some(Rule::Cover);
    }
    if is(word, "eliminate") {
        return Some(Rule::Eliminate);
    }
    if is(word, "expand") {
        return Some(Rule::Expand);
    }
    None
}

// A move of one of the first six rules, by what stands behind its word.
fn plain_by(rule: Rule, text: &[u8]) -> Option<Move>
    ensures { option_map (λ m. target_of m) result ≡ target_by rule text.now }
{
    match rule {
        Rule::Tautology => {
            let c = number(text)?;
            Some(Move::Reduce(Reduce::Tautology { c }))
        }
        Rule::Unit => {
            let c = number(text)?;
            Some(Move::Reduce(Reduce::Unit { c }))
        }
        Rule::Cut => {
            let (c, l) = number_and_literal(text)?;
            Some(Move::Reduce(Reduce::Cut { c, l }))
        }
        Rule::Pure => {
            let l = literal(text)?;
            Some(Move::Reduce(Reduce::Pure { l }))
        }
        Rule::Subsumed => {
            let (c, d) = two_numbers(text)?;
            Some(Move::Subsume(Subsume::Subsumed { c, d }))
        }
        Rule::Strengthen => {
            let (c, (d, l)) = two_numbers_and_literal(text)?;
            Some(Move::Subsume(Subsume::Strengthen { c, d, l }))
        }
        _ => other_by(rule, text),
    }
}

// A move of one of the others.
fn other_by(rule: Rule, text: &[u8]) -> Option<Move>
    requires { IsOther rule }
    ensures { option_map (λ m. target_of m) result ≡ target_by rule text.now }
{
    match rule {
        Rule::Merge => {
            let (keep, gone) = two_literals(text)?;
            Some(Move::Merge(Merge::Merge { keep, gone }))
        }
        Rule::Blocked => {
            let (c, l) = number_and_literal(text)?;
            Some(Move::Block(Block::Blocked { c, l }))
        }
        Rule::BlockedForall => {
            let (c, l) = number_and_literal(text)?;
            Some(Move::Block(Block::BlockedForall { c, l }))
        }
        Rule::Cover => {
            let c = number(text)?;
            Some(Move::Block(Block::Cover { c }))
        }
        Rule::Eliminate => {
            let x = number(text)?;
            Some(Move::Eliminate(Eliminate::Eliminate { x }))
        }
        _ => {
            let u = number(text)?;
            Some(Move::Expand(Expand::Expand { u }))
        }
    }
}

/// The move of a line.
pub(crate) fn move_of(line: &[u8]) -> Option<Move>
    ensures { option_map (λ m. target_of m) result ≡ target_in line.now }
{
    let Some((word, text)) = halves(line, b' ') else {
        return None;
    };
    match rule_of(word) {
        Some(rule) => plain_by(rule, text),
        None => None,
    }
}

/// The first line of a text, and what is left.
pub(crate) fn first_line(text: &[u8]) -> (&[u8], &[u8])
    requires { 0 < length text.now }
    ensures first { IsFirstLine text.now result.0.now result.1.now }
    ensures shorter { length result.1.now < length text.now }
{
    match halves(text, b'\n') {
        Some(it) => it,
        None => (text, &[]),
    }
}

// Whether a line is empty, or has a move.
fn is_right(line: &[u8]) -> bool
    ensures { result ≡ spec_is_right line.now }
{
    if line.is_empty() {
        return true;
    }
    move_of(line).is_some()
}

/// The number of the first line of a text that is wrong, counted from 1.
pub(crate) fn wrong_line(text: &[u8]) -> Option<usize>
    ensures { result ≡ spec_wrong_line text.now }
{
    let mut left = text;
    for before in 0..text.len() {
        if left.is_empty() {
            return None;
        }
        let (line, rest) = first_line(left);
        if !is_right(line) {
            return Some(before + 1);
        }
        left = rest;
    }
    None
}
