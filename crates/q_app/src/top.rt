// The top call, and the same without an alarm.
ghost use Rattle.std.specs.Prelude.{◌≡◌, ◌≢◌, ◌≤◌, ◌⊎◌, None, Some};
ghost use Rattle.q_command.specs.Devices.{AreLater, devices};
ghost use Rattle.q_command.specs.Names.{three_of};
ghost use Rattle.q_command.specs.Told.{Runs};
ghost use Rattle.q_app.specs.Commands.{IsFit, commands_of, five_of, is_plain as spec_is_plain, request, seconds_of as spec_seconds_of};
ghost use Rattle.q_app.specs.Operands.{Differ, texts};
ghost use Rattle.q_app.specs.Promises.{AnswerComes, DemoPasses, SimplifyEnds};
ghost use Rattle.q_app.specs.Says.{Does, InTurn};
ghost use Rattle.q_app.specs.Stopping.{AlarmKeeps, DoesUntil, IsSetAndHeard, KeepsUntil};
ghost use Rattle.q_app.specs.Simplifying.{told_stopped};
ghost use Rattle.q_sched.specs.Alarms.{UnlessRung};
ghost use Rattle.q_app.specs.Told.{told};
ghost use Rattle.q_sched.specs.AlarmViews.{view_alarm};
ghost use Rattle.q_app.specs.Words.{checking, sharing, demo, generating, rebuilding, simplifying};

use crate::gen_file::generate_file;
use crate::rebuild::rebuild_files;
use crate::rebuild_words::RebuildNames;
use crate::settings::Settings;
use crate::simplify::simplify_file;
use crate::words::{Command, Scale, is_plain, parse, seconds_of};
use q_command::{Names, Part, Status, check, check_part, put};
use q_gen::generated_is_read;
use q_io::{Files, Sink};
use q_log::texts_are_read;
use q_run_annotate::{run as run_annotate, run_part as run_annotate_part};
use q_run_apply::run as run_apply;
use q_run_disprove::{
    run as run_disprove, run_certified as run_disprove_certified, run_part as run_disprove_part,
};
use q_run_extract::run as run_extract;
use q_run_miter::run as run_miter;
use q_run_refute::run as run_refute;
use q_run_show::run as run_show;
use q_run_solve::run as run_solve;
use q_run_validate::run as run_validate;
use q_sched::Guide;
use q_simplify::{Alarm, Never, Options};
use std::alloc::Global;

// When `simplify` is to stop: behind so many seconds, and in a plain run where no guide is left.
#[derive(Clone, Copy)]
struct Watch {
    seconds: Option<u64>,
    plain: bool,
}

// What `simplify` is asked for.
#[derive(Clone, Copy)]
struct Simplification<'a> {
    names: Names<'a>,
    options: Options,
    watch: Watch,
}

// What `demo` is asked for.
#[derive(Clone, Copy)]
struct Demonstration<'a> {
    scale: Scale,
    names: Names<'a>,
}

// The commands that are not crates of their own: what each does, and then its line.

fn run_check<F: Files, S: Sink>(alloc: Global, files: &mut F, out: &mut S, names: Names) -> Status
    ensures runs { Runs (told (checking (three_of names.entry)))
        (devices F.Files S.Sink files.old out.old) result
        (devices F.Files S.Sink files.new out.new) }
    ensures later { AreLater
        (devices F.Files S.Sink files.old out.old) (devices F.Files S.Sink files.new out.new) }
{
    check(alloc, files, names).say(out)
}

fn run_share<F: Files, S: Sink>(
    alloc: Global,
    files: &mut F,
    out: &mut S,
    names: Names,
    part: Part,
) -> Status
    ensures { Runs (told (sharing (three_of names.entry) part))
        (devices F.Files S.Sink files.old out.old) result
        (devices F.Files S.Sink files.new out.new) }
{
    check_part(alloc, files, names, part).say(out)
}

fn run_simplify<F: Files, S: Sink, A: Alarm>(
    alloc: Global,
    files: &mut F,
    out: &mut S,
    asked: Simplification,
    guides: Vec<Box<dyn Guide>>,
    alarm: &mut A,
) -> Status
    requires names { Differ (three_of asked.names) }
    ensures runs { UnlessRung (view_alarm A.Alarm alarm.old) (view_alarm A.Alarm alarm.new)
        (Runs (told (simplifying (three_of asked.entry.names) asked.entry.options))
        (devices F.Files S.Sink files.old out.old) result
        (devices F.Files S.Sink files.new out.new))
        (Runs (told_stopped (three_of asked.entry.names) asked.entry.options)
        (devices F.Files S.Sink files.old out.old) result
        (devices F.Files S.Sink files.new out.new)) }
    ensures alarm { IsSetAndHeard asked.entry.watch.seconds asked.entry.watch.plain result
        (view_alarm A.Alarm alarm.old) (view_alarm A.Alarm alarm.new) }
    ensures later { AreLater
        (devices F.Files S.Sink files.old out.old) (devices F.Files S.Sink files.new out.new) }
{
    alarm.set(asked.watch.seconds, asked.watch.plain);
    simplify_file(alloc, files, asked.names, &asked.options, guides, alarm).say(out)
}

fn run_rebuild<F: Files, S: Sink>(
    alloc: Global,
    files: &mut F,
    out: &mut S,
    names: RebuildNames,
) -> Status
    ensures { Runs (told (rebuilding (five_of names.entry)))
        (devices F.Files S.Sink files.old out.old) result
        (devices F.Files S.Sink files.new out.new) }
{
    rebuild_files(alloc, files, names).say(out)
}

fn run_generate<F: Files, S: Sink>(
    alloc: Global,
    files: &mut F,
    out: &mut S,
    scale: Scale,
    output: &str,
) -> Status
    requires { scale.size ≤ 100000 }
    ensures runs { Runs (told (generating scale output.now))
        (devices F.Files S.Sink files.old out.old) result
        (devices F.Files S.Sink files.new out.new) }
    ensures later { AreLater
        (devices F.Files S.Sink files.old out.old) (devices F.Files S.Sink files.new out.new) }
{
    generate_file(alloc, files, scale, output).say(out)
}

// `gen`, `simplify` and `check` one after the other, up to the first that does not pass.
fn run_demo<F: Files, S: Sink>(
    alloc: Global,
    files: &mut F,
    out: &mut S,
    asked: Demonstration,
    guides: Vec<Box<dyn Guide>>,
) -> Status
    requires small { asked.scale.size ≤ 100000 }
    requires names { Differ (three_of asked.names) }
    ensures { InTurn (demo asked.entry.scale (three_of asked.entry.names))
        (devices F.Files S.Sink files.old out.old) result
        (devices F.Files S.Sink files.new out.new) }
{
    let Demonstration { scale, names } = asked;
    let made = run_generate(alloc, files, out, scale, names.input);
    if !made.passes() {
        return made;
    }
    let options = Settings::none().options();
    let watch = Watch {
        seconds: None,
        plain: false,
    };
    let simplify = Simplification {
        names,
        options,
        watch,
    };
    let simplified = run_simplify(alloc, files, out, simplify, guides, &mut Never::new());
    if !simplified.passes() {
        return simplified;
    }
    run_check(alloc, files, out, names)
}

// The alarm is for `simplify` alone.
fn run_command<F: Files, S: Sink, A: Alarm>(
    alloc: Global,
    files: &mut F,
    out: &mut S,
    command: Command,
    watch: Watch,
    guides: Vec<Box<dyn Guide>>,
    alarm: &mut A,
) -> Status
    requires { IsFit command }
    ensures does { DoesUntil (view_alarm A.Alarm alarm.old) (view_alarm A.Alarm alarm.new)
        (Some (commands_of command.entry)) (devices F.Files S.Sink files.old out.old) result
        (devices F.Files S.Sink files.new out.new) }
    ensures alarm { AlarmKeeps (Some (commands_of command.entry)) watch.seconds watch.plain result
        (view_alarm A.Alarm alarm.old) (view_alarm A.Alarm alarm.new) }
{
    match command {
        Command::Check { names } => run_check(alloc, files, out, names),
        Command::Share { names, part } => run_share(alloc, files, out, names, part),
        Command::Simplify { names, options } => {
            let asked = Simplification {
                names,
                options,
                watch,
            };
            run_simplify(alloc, files, out, asked, guides, alarm)
        }
        Command::Rebuild { names } => run_rebuild(alloc, files, out, names),
        Command::Generate { scale, output } => run_generate(alloc, files, out, scale, output),
        Command::Validate { names, budget } => run_validate(alloc, files, out, names, budget),
        Command::Refute { names } => run_refute(alloc, files, out, names),
        Command::Annotate { names } => run_annotate(alloc, files, out, names),
        Command::AnnotateShare { names, part } => {
            run_annotate_part(alloc, files, out, names, part)
        }
        Command::Show {
            names,
            binary,
            part,
        } => run_show(alloc, files, out, names, binary, part),
        Command::Solve { names, budget } => { run_solve(alloc, files, out, names, budget, guides) }
        Command::Extract { names } => run_extract(alloc, files, out, names),
        Command::Miter { names, side } => run_miter(alloc, files, out, names, side),
        Command::Disprove { names, binary } => run_disprove(alloc, files, out, names, binary),
        Command::DisproveShare {
            names,
            binary,
            part,
        } => run_disprove_part(alloc, files, out, names, binary, part),
        Command::Certify { names, binary } => {
            run_disprove_certified(alloc, files, out, names, binary)
        }
        Command::Apply { names } => run_apply(alloc, files, out, names),
        Command::Demo { scale, names } => {
            run_demo(alloc, files, out, Demonstration { scale, names }, guides)
        }
    }
}

/// Does what the words ask, one command after the other, over these files, with one line for each command put into the
/// sink. Main hands in the disk, standard output and the words after the
/// program's name. The guides serve `simplify`: they are asked which target is tried next, and what is proved holds for
/// every list of them. The alarm serves the command `simplify` too: it is set as the words say, and asked before each turn and within
/// long searches. Where it rings, the run stops there.
pub fn run<F: Files, S: Sink, A: Alarm>(
    alloc: Global,
    words: &[String],
    files: &mut F,
    out: &mut S,
    guides: Vec<Box<dyn Guide>>,
    alarm: &mut A,
) -> Status
    // `Usage` comes exactly where the words ask for nothing, but for a sink that fails.
    ensures usage { result ≡ Status.Usage → request (texts words.now) ≡ None }
    ensures no_command { request (texts words.now) ≡ None
        → (result ≡ Status.Usage) ⊎ (result ≡ Status.WriteFault) ⊎ (result ≡ Status.NoMemory) }

    // Unless the alarm rang, all is as without one: when each status comes, what the files hold then, which faults are answered and
    // which lines are put; that `simplify` ends, memory and faults aside; that each command answers, and `demo` passes, where no fault
    // comes, or memory is wanting. Where it rang, that may be so too, or else `simplify` says that it was stopped, and nothing of
    // whether a target is left: OUT and LOG are those of a run under the budget that is just spent there.
    ensures keeps { KeepsUntil (view_alarm A.Alarm alarm.old) (view_alarm A.Alarm alarm.new)
        (request (texts words.now)) (devices F.Files S.Sink files.old out.old) result
        (devices F.Files S.Sink files.new out.new) }

    // No command but `simplify` touches the alarm, and `simplify` sets it as the words say, asks it, and heeds it.
    ensures alarm { AlarmKeeps (request (texts words.now)) (spec_seconds_of (texts words.now))
        (spec_is_plain (texts words.now)) result (view_alarm A.Alarm alarm.old)
        (view_alarm A.Alarm alarm.new) }
{
    texts_are_read();
    generated_is_read();
    let watch = Watch {
        seconds: seconds_of(words),
        plain: is_plain(words),
    };
    match parse(words) {
        Some(command) => run_command(alloc, files, out, command, watch, guides, alarm),
        None => put(out, Status::Usage, b"usage\n"),
    }
}

/// The same with no alarm, so `simplify` ends by itself: seconds and `--plain` mean nothing then.
pub fn run_whole<F: Files, S: Sink>(
    alloc: Global,
    words: &[String],
    files: &mut F,
    out: &mut S,
    guides: Vec<Box<dyn Guide>>,
) -> Status
    // `Usage` comes exactly where the words ask for nothing, but for a sink that fails.
    ensures usage { result ≡ Status.Usage → request (texts words.now) ≡ None }
    ensures no_command { request (texts words.now) ≡ None
        → (result ≡ Status.Usage) ⊎ (result ≡ Status.WriteFault) ⊎ (result ≡ Status.NoMemory) }

    // When each status comes, what the files hold then, which faults are answered and which lines are put.
    ensures does { Does (request (texts words.now))
        (devices F.Files S.Sink files.old out.old) result
        (devices F.Files S.Sink files.new out.new) }

    // `simplify` ends, memory and faults aside; each command answers, and `demo` passes, where no fault comes, or memory is
    // wanting.
    ensures simplify_ends { SimplifyEnds (request (texts words.now))
        (devices F.Files S.Sink files.old out.old) result
        (devices F.Files S.Sink files.new out.new) }
    ensures answer_comes { AnswerComes (request (texts words.now))
        (devices F.Files S.Sink files.old out.old) result
        (devices F.Files S.Sink files.new out.new) }
    ensures demo_passes { DemoPasses (request (texts words.now))
        (devices F.Files S.Sink files.old out.old) result
        (devices F.Files S.Sink files.new out.new) }
{
    run(alloc, words, files, out, guides, &mut Never::new())
}
