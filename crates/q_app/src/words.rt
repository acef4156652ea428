// The words of the command line.
ghost use Rattle.std.specs.Prelude.{◌≡◌, ◌≢◌, ◌≤◌, option_map, IfSome, Some};
ghost use Rattle.q_app.specs.RebuildWords.{rebuild_names};
ghost use Rattle.q_app.specs.PartWords.{annotate_of, check_of};
ghost use Rattle.q_app.specs.AnnotateWords.{annotation_of, part_or_all as spec_part_or_all, show_of};
ghost use Rattle.q_app.specs.DisproveWords.{certify_of, disproof_of, disprove_of, disprove_shared};
ghost use Rattle.q_app.specs.Words.{apply_of};
ghost use Rattle.q_app.specs.Words.{demo_by, demo_of, extract_of, generate_of, miter_of, refute_of, scale_of as spec_scale_of, side_of as spec_side_of, simplify_of, solve_of, validate_of};
ghost use Rattle.q_run_disprove.specs.Disproofs.{files_of as disprove_files_of};
ghost use Rattle.q_app.specs.Operands.{fourth, just_three, three_names as spec_three_names, two_names as spec_two_names, texts};
ghost use Rattle.q_app.specs.Commands.{IsFit, bounds_in, by_verb as spec_by_verb, commands_of, is_plain as spec_is_plain, request, seconds_of as spec_seconds_of, settings_in};

use crate::disprove_words::{are_names, options_of};
use crate::operands::{budget_of, flag_of, four_names, only_names, three_names, two_names};
use crate::part_words::part_of;
use crate::rebuild_words::{RebuildNames, parse_rebuild};
use crate::settings::{Settings, number};
use q_command::{Names, Part};
use q_logic::Bounds;
use q_run_annotate::AnnotateNames;
use q_run_apply::ApplyNames;
use q_run_disprove::{CertifyNames, DisproveNames};
use q_run_extract::ExtractNames;
use q_run_miter::{MiterNames, Side};
use q_run_refute::RefuteNames;
use q_run_show::ShowNames;
use q_run_solve::SolveNames;
use q_run_validate::ValidateNames;
use q_simplify::Options;

/// What formula is generated: by the seed of its random numbers, and with so many clauses.
#[derive(Clone, Copy, Debug, PartialEq, Eq)]
pub(crate) struct Scale {
    pub seed: u64,
    pub size: u32,
}

/// What is to be done, with the names of the files.
#[derive(Clone, Copy)]
pub(crate) enum Command<'a> {
    Check {
        names: Names<'a>,
    },
    Share {
        names: Names<'a>,
        part: Part,
    },
    Simplify {
        names: Names<'a>,
        options: Options,
    },
    Rebuild {
        names: RebuildNames<'a>,
    },
    Generate {
        scale: Scale,
        output: &'a str,
    },
    Validate {
        names: ValidateNames<'a>,
        budget: Option<u64>,
    },
    Refute {
        names: RefuteNames<'a>,
    },
    Annotate {
        names: AnnotateNames<'a>,
    },
    AnnotateShare {
        names: AnnotateNames<'a>,
        part: Part,
    },
    Show {
        names: ShowNames<'a>,
        binary: bool,
        part: Part,
    },
    Solve {
        names: SolveNames<'a>,
        budget: Option<u64>,
    },
    Extract {
        names: ExtractNames<'a>,
    },
    Miter {
        names: MiterNames<'a>,
        side: Side,
    },
    Disprove {
        names: DisproveNames<'a>,
        binary: bool,
    },
    DisproveShare {
        names: DisproveNames<'a>,
        binary: bool,
        part: Part,
    },
    Certify {
        names: CertifyNames<'a>,
        binary: bool,
    },
    Apply {
        names: ApplyNames<'a>,
    },
    Demo {
        scale: Scale,
        names: Names<'a>,
    },
}

/// The command that the words are, if they are one.
pub(crate) fn parse(words: &[String]) -> Option<Command>
    ensures request { option_map (λ o. commands_of o) result ≡ request (texts words.now) }
    ensures fit { IfSome result IsFit }
{
    if words.len() == 0 {
        return None;
    }
    by_verb(words[0].as_str(), &words[1..])
}

fn by_verb<'a>(verb: &str, operands: &'a [String]) -> Option<Command<'a>>
    ensures request { option_map (λ o. commands_of o) result
        ≡ spec_by_verb verb.now (texts operands.now) }
    ensures fit { IfSome result IsFit }
{
    if verb == "check" {
        return parse_check(operands);
    }
    if verb == "simplify" {
        return parse_simplify(operands);
    }
    if verb == "rebuild" {
        return match parse_rebuild(operands) {
            Some(names) => Some(Command::Rebuild { names }),
            None => None,
        };
    }
    if verb == "gen" {
        return parse_generate(operands);
    }
    if verb == "validate" {
        return parse_validate(operands);
    }
    if verb == "refute" {
        return parse_refute(operands);
    }
    if verb == "annotate" {
        return parse_annotate(operands);
    }
    if verb == "solve" {
        return parse_solve(operands);
    }
    if verb == "extract" {
        return parse_extract(operands);
    }
    if verb == "miter" {
        return parse_miter(operands);
    }
    if verb == "disprove" {
        return parse_disprove(operands);
    }
    if verb == "apply" {
        return parse_apply(operands);
    }
    if verb == "demo" {
        return parse_demo(operands);
    }
    None
}

fn parse_check(operands: &[String]) -> Option<Command>
    ensures request { option_map (λ o. commands_of o) result
        ≡ check_of (spec_three_names (texts operands.now)) }
    ensures fit { IfSome result IsFit }
{
    let Some(begun) = three_names(operands) else {
        return None;
    };
    let names = begun.names;
    match part_of(begun.rest) {
        Some(Some(part)) => Some(Command::Share { names, part }),
        Some(None) => Some(Command::Check { names }),
        None => None,
    }
}

fn parse_simplify(operands: &[String]) -> Option<Command>
    ensures request { option_map (λ o. commands_of o) result
        ≡ simplify_of (spec_three_names (texts operands.now)) }
    ensures fit { IfSome result IsFit }
{
    let Some(begun) = three_names(operands) else {
        return None;
    };
    match Settings::of(begun.rest) {
        Some(settings) => Some(Command::Simplify {
            names: begun.names,
            options: settings.options(),
        }),
        None => None,
    }
}

fn parse_validate(operands: &[String]) -> Option<Command>
    ensures request { option_map (λ o. commands_of o) result
        ≡ validate_of (spec_two_names (texts operands.now)) }
    ensures fit { IfSome result IsFit }
{
    let Some(pair) = two_names(operands) else {
        return None;
    };
    let names = ValidateNames {
        input: pair.first,
        cert: pair.second,
    };
    match budget_of(pair.rest) {
        Some(budget) => Some(Command::Validate { names, budget }),
        None => None,
    }
}

fn parse_refute(operands: &[String]) -> Option<Command>
    ensures request { option_map (λ o. commands_of o) result
        ≡ refute_of (rebuild_names (texts operands.now)) }
    ensures fit { IfSome result IsFit }
{
    match parse_rebuild(operands) {
        Some(names) => Some(Command::Refute {
            names: RefuteNames {
                input: names.input,
                output: names.output,
                log: names.log,
                herbrand: names.skolem,
                cert: names.cert,
            },
        }),
        None => None,
    }
}

fn parse_annotate(operands: &[String]) -> Option<Command>
    ensures request { option_map (λ o. commands_of o) result ≡ annotation_of (texts operands.now) }
    ensures fit { IfSome result IsFit }
{
    match parse_show(operands) {
        Some(command) => Some(command),
        None => parse_four(operands),
    }
}

fn part_or_all(part: Option<Part>) -> Part
    ensures { result ≡ spec_part_or_all part }
{
    match part {
        Some(part) => part,
        None => Part {
            index: 0,
            others: 0,
        },
    }
}

// `annotate IN PROOF HINTED`, as a whole or a part.
fn parse_show(operands: &[String]) -> Option<Command>
    ensures request { option_map (λ o. commands_of o) result
        ≡ show_of (spec_three_names (texts operands.now)) }
    ensures fit { IfSome result IsFit }
{
    let Some(begun) = three_names(operands) else {
        return None;
    };
    if !are_names(begun.names) {
        return None;
    }
    let names = ShowNames {
        input: begun.names.input,
        proof: begun.names.output,
        hinted: begun.names.log,
    };
    match options_of(begun.rest) {
        Some(options) => Some(Command::Show {
            names,
            binary: options.binary,
            part: part_or_all(options.part),
        }),
        None => None,
    }
}

// `annotate IN OUT LOG HINTED`, as a whole or a part.
fn parse_four(operands: &[String]) -> Option<Command>
    ensures request { option_map (λ o. commands_of o) result
        ≡ annotate_of (fourth (spec_three_names (texts operands.now))) }
    ensures fit { IfSome result IsFit }
{
    let Some(four) = four_names(operands) else {
        return None;
    };
    let names = AnnotateNames {
        input: four.names.input,
        output: four.names.output,
        log: four.names.log,
        hinted: four.last,
    };
    match part_of(four.rest) {
        Some(Some(part)) => Some(Command::AnnotateShare { names, part }),
        Some(None) => Some(Command::Annotate { names }),
        None => None,
    }
}

fn parse_solve(operands: &[String]) -> Option<Command>
    ensures request { option_map (λ o. commands_of o) result
        ≡ solve_of (fourth (spec_three_names (texts operands.now))) }
    ensures fit { IfSome result IsFit }
{
    let Some(four) = four_names(operands) else {
        return None;
    };
    let names = SolveNames {
        input: four.names.input,
        output: four.names.output,
        log: four.names.log,
        cert: four.last,
    };
    match budget_of(four.rest) {
        Some(budget) => Some(Command::Solve { names, budget }),
        None => None,
    }
}

fn parse_extract(operands: &[String]) -> Option<Command>
    ensures request { option_map (λ o. commands_of o) result
        ≡ extract_of (just_three (spec_three_names (texts operands.now))) }
    ensures fit { IfSome result IsFit }
{
    match only_names(operands) {
        Some(names) => Some(Command::Extract {
            names: ExtractNames {
                input: names.input,
                trace: names.output,
                cert: names.log,
            },
        }),
        None => None,
    }
}

fn side_of(herbrand: bool) -> Side
    ensures { result ≡ spec_side_of herbrand }
{
    if herbrand {
        Side::Herbrand
    } else {
        Side::Skolem
    }
}

fn parse_miter(operands: &[String]) -> Option<Command>
    ensures request { option_map (λ o. commands_of o) result
        ≡ miter_of (spec_three_names (texts operands.now)) }
    ensures fit { IfSome result IsFit }
{
    let Some(begun) = three_names(operands) else {
        return None;
    };
    let names = MiterNames {
        input: begun.names.input,
        cert: begun.names.output,
        output: begun.names.log,
    };
    match flag_of(begun.rest, "--herbrand") {
        Some(herbrand) => Some(Command::Miter {
            names,
            side: side_of(herbrand),
        }),
        None => None,
    }
}

fn parse_disprove(operands: &[String]) -> Option<Command>
    ensures request { option_map (λ o. commands_of o) result ≡ disproof_of (texts operands.now) }
    ensures fit { IfSome result IsFit }
{
    match parse_two(operands) {
        Some(command) => Some(command),
        None => parse_certify(operands),
    }
}

// `disprove IN PROOF CERT`.
fn parse_certify(operands: &[String]) -> Option<Command>
    ensures request { option_map (λ o. commands_of o) result
        ≡ certify_of (spec_three_names (texts operands.now)) }
    ensures fit { IfSome result IsFit }
{
    let Some(begun) = three_names(operands) else {
        return None;
    };
    if !are_names(begun.names) {
        return None;
    }
    let names = CertifyNames {
        input: begun.names.input,
        proof: begun.names.output,
        cert: begun.names.log,
    };
    match flag_of(begun.rest, "--binary") {
        Some(binary) => Some(Command::Certify { names, binary }),
        None => None,
    }
}

fn parse_apply(operands: &[String]) -> Option<Command>
    ensures request { option_map (λ o. commands_of o) result
        ≡ apply_of (just_three (spec_three_names (texts operands.now))) }
    ensures fit { IfSome result IsFit }
{
    match only_names(operands) {
        Some(names) => Some(Command::Apply {
            names: ApplyNames {
                input: names.input,
                log: names.output,
                output: names.log,
            },
        }),
        None => None,
    }
}

// `disprove IN PROOF`, as a whole or a part.
fn parse_two(operands: &[String]) -> Option<Command>
    ensures request { option_map (λ o. commands_of o) result
        ≡ disprove_of (spec_two_names (texts operands.now)) }
    ensures fit { IfSome result IsFit }
{
    let Some(pair) = two_names(operands) else {
        return None;
    };
    let names = DisproveNames {
        input: pair.first,
        proof: pair.second,
    };
    match options_of(pair.rest) {
        Some(options) => Some(disprove_by(names, options.binary, options.part)),
        None => None,
    }
}

fn disprove_by(names: DisproveNames, binary: bool, part: Option<Part>) -> Command
    ensures request { Some (commands_of result)
        ≡ disprove_shared (disprove_files_of names.entry) binary part }
    ensures fit { IsFit result }
{
    match part {
        Some(part) => Command::DisproveShare {
            names,
            binary,
            part,
        },
        None => Command::Disprove { names, binary },
    }
}

fn scale_of(seed: &str, size: &str) -> Option<Scale>
    ensures scale { result ≡ spec_scale_of seed.now size.now }
    ensures small { IfSome result (λ k. k.size ≤ 100000) }
{
    let Some(seed) = number(seed.as_bytes(), u64::MAX) else {
        return None;
    };
    let Some(size) = number(size.as_bytes(), 100_000) else {
        return None;
    };
    if size == 0 {
        return None;
    }
    Some(Scale {
        seed,
        size: size as u32,
    })
}

fn parse_generate(operands: &[String]) -> Option<Command>
    ensures request { option_map (λ o. commands_of o) result ≡ generate_of (texts operands.now) }
    ensures fit { IfSome result IsFit }
{
    if operands.len() != 3 {
        return None;
    }
    match scale_of(operands[0].as_str(), operands[1].as_str()) {
        Some(scale) => Some(Command::Generate {
            scale,
            output: operands[2].as_str(),
        }),
        None => None,
    }
}

fn demo_over(scale: Scale, operands: &[String]) -> Option<Command>
    requires { scale.size ≤ 100000 }
    ensures request { option_map (λ o. commands_of o) result
        ≡ demo_by (Some scale) (just_three (spec_three_names (texts operands.now))) }
    ensures fit { IfSome result IsFit }
{
    match only_names(operands) {
        Some(names) => Some(Command::Demo { scale, names }),
        None => None,
    }
}

fn parse_demo(operands: &[String]) -> Option<Command>
    ensures request { option_map (λ o. commands_of o) result ≡ demo_of (texts operands.now) }
    ensures fit { IfSome result IsFit }
{
    if operands.len() < 2 {
        return None;
    }
    match scale_of(operands[0].as_str(), operands[1].as_str()) {
        Some(scale) => demo_over(scale, &operands[2..]),
        None => None,
    }
}

/// The bounds of the simplification that the words ask for, and the defaults where they ask for none.
pub fn bounds_of(words: &[String]) -> Bounds
    ensures { result ≡ bounds_in (request (texts words.now)) }
{
    match parse(words) {
        Some(Command::Simplify { options, .. }) => options.bounds,
        _ => Settings::none().options().bounds,
    }
}

// The settings of the simplification that the words ask for, if they ask for one.
fn settings_of(words: &[String]) -> Option<Settings>
    ensures { result ≡ settings_in (texts words.now) }
{
    if words.len() == 0 {
        return None;
    }
    if words[0].as_str() != "simplify" {
        return None;
    }
    match three_names(&words[1..]) {
        Some(begun) => Settings::of(begun.rest),
        None => None,
    }
}

/// After how many seconds the simplification that the words ask for is to stop, if they say so.
pub fn seconds_of(words: &[String]) -> Option<u64>
    ensures { result ≡ spec_seconds_of (texts words.now) }
{
    match settings_of(words) {
        Some(settings) => settings.seconds,
        None => None,
    }
}

/// Whether the words ask for a simplification that leaves extended universal reduction out.
pub fn is_plain(words: &[String]) -> bool
    ensures { result ≡ spec_is_plain (texts words.now) }
{
    match settings_of(words) {
        Some(settings) => settings.plain,
        None => false,
    }
}
