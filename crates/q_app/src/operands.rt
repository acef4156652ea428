// Operands: names of files, which differ, and what stands behind them.
ghost use Rattle.std.specs.Prelude.{◌≡◌, option_map, IfSome, Some};
ghost use Rattle.q_command.specs.Names.{three_of};
ghost use Rattle.q_app.specs.Operands.{Differ, DifferFour, are_different as spec_are_different, flag_in, fourth, is_fourth as spec_is_fourth, just_three, three_names as spec_three_names, two_names as spec_two_names, texts};
ghost use Rattle.q_app.specs.Words.{budget_in};

use crate::settings::Settings;
use q_command::Names;

fn are_different(a: &str, b: &str, c: &str) -> bool
    ensures { result ≡ spec_are_different a.now b.now c.now }
{
    a != b && a != c && b != c
}

/// The names of three files that the operands begin with, and the words behind them.
#[derive(Clone, Copy)]
pub(crate) struct Begun<'a> {
    pub names: Names<'a>,
    pub rest: &'a [String],
}

/// The names, where they differ.
pub(crate) fn three_names(operands: &[String]) -> Option<Begun>
    ensures names { option_map (λ o. (three_of o.names, texts o.rest.now)) result
        ≡ spec_three_names (texts operands.now) }
    ensures apart { IfSome result (λ o. Differ (three_of o.names)) }
{
    if operands.len() < 3 {
        return None;
    }
    let input = operands[0].as_str();
    let output = operands[1].as_str();
    let log = operands[2].as_str();
    if !are_different(input, output, log) {
        return None;
    }
    Some(Begun {
        names: Names { input, output, log },
        rest: &operands[3..],
    })
}

/// The three names that the operands are.
pub(crate) fn only_names(operands: &[String]) -> Option<Names>
    ensures names { option_map (λ o. three_of o) result
        ≡ just_three (spec_three_names (texts operands.now)) }
    ensures apart { IfSome result (λ o. Differ (three_of o)) }
{
    let Some(begun) = three_names(operands) else {
        return None;
    };
    if !begun.rest.is_empty() {
        return None;
    }
    Some(begun.names)
}

/// The names of two files that the operands begin with, and the words behind them.
#[derive(Clone, Copy)]
pub(crate) struct Pair<'a> {
    pub first: &'a str,
    pub second: &'a str,
    pub rest: &'a [String],
}

/// The names, where they differ.
pub(crate) fn two_names(operands: &[String]) -> Option<Pair>
    ensures { option_map (λ o. (o.first.now, o.second.now, texts o.rest.now)) result
        ≡ spec_two_names (texts operands.now) }
{
    if operands.len() < 2 {
        return None;
    }
    let first = operands[0].as_str();
    let second = operands[1].as_str();
    if first == second {
        return None;
    }
    Some(Pair {
        first,
        second,
        rest: &operands[2..],
    })
}

/// The names of IN, OUT, LOG and one more file that the operands begin with, and the words behind them.
#[derive(Clone, Copy)]
pub(crate) struct Four<'a> {
    pub names: Names<'a>,
    pub last: &'a str,
    pub rest: &'a [String],
}

fn is_fourth(names: Names, last: &str) -> bool
    ensures { result ≡ spec_is_fourth (three_of names.entry) last.now }
{
    names.input != last && names.output != last && names.log != last
}

// The fourth name, where it differs from three.
fn fourth_of<'a>(names: Names<'a>, rest: &'a [String]) -> Option<Four<'a>>
    requires { Differ (three_of names) }
    ensures names { option_map (λ o. (three_of o.names, o.last.now, texts o.rest.now)) result
        ≡ fourth (Some (three_of names.entry, texts rest.now)) }
    ensures apart { IfSome result (λ o. DifferFour (three_of o.names) o.last.now) }
{
    if rest.len() == 0 {
        return None;
    }
    let last = rest[0].as_str();
    if !is_fourth(names, last) {
        return None;
    }
    Some(Four {
        names,
        last,
        rest: &rest[1..],
    })
}

/// The names, where they differ.
pub(crate) fn four_names(operands: &[String]) -> Option<Four>
    ensures names { option_map (λ o. (three_of o.names, o.last.now, texts o.rest.now)) result
        ≡ fourth (spec_three_names (texts operands.now)) }
    ensures apart { IfSome result (λ o. DifferFour (three_of o.names) o.last.now) }
{
    match three_names(operands) {
        Some(begun) => fourth_of(begun.names, begun.rest),
        None => None,
    }
}

/// Whether the only word is this one, if there are no other words.
pub(crate) fn flag_of(words: &[String], flag: &str) -> Option<bool>
    ensures { result ≡ flag_in flag.now (texts words.now) }
{
    if words.len() == 0 {
        return Some(false);
    }
    if words.len() > 1 {
        return None;
    }
    if words[0].as_str() == flag {
        return Some(true);
    }
    None
}

/// The budget that these words set, if they set nothing else.
pub(crate) fn budget_of(words: &[String]) -> Option<Option<u64>>
    ensures { result ≡ budget_in (texts words.now) }
{
    match Settings::of(words) {
        Some(settings) => settings.only_budget(),
        None => None,
    }
}
