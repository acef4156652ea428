//! A formula is simplified in memory, and the log of its steps is checked there, which gives what is to be undone.
ghost use Rattle.std.specs.Prelude.{◌≡◌, true, false, IfOk};
ghost use Rattle.q_logic.specs.Prelude.{standard, IsInLimits, IsProper};
ghost use Rattle.q_io.specs.Files.{bytes_at};
ghost use Rattle.q_command.specs.Checks.{FilesPass, LeadsBack};
ghost use Rattle.q_run_solve.specs.Reduces.{SomeSimplified, IsReducedTo, in_name, out_name, log_name};

use q_command::{Checked, Keep, Names, verify};
use q_dimacs::{write, written_within_limits_is_read};
use q_io::SteadyFiles;
use q_logic::{Bounds, Formula, NoMemory};
use q_sched::Guide;
use q_simplify::{Never, Options, simplify};
use std::alloc::Global;

/// The texts in memory, and what the check of the log gives.
#[derive(Drop)]
pub struct Reduced {
    pub memory: SteadyFiles,
    pub checked: Checked,
}

// The texts of the formula, of the one that is left, and of the log.
fn simplify_in_memory(
    alloc: Global,
    formula: Formula,
    guides: Vec<Box<dyn Guide>>,
) -> Result<SteadyFiles, NoMemory>
    requires proper { IsProper formula }
    requires limits { IsInLimits standard formula }
    ensures { IfOk result (SomeSimplified formula) }
{
    let mut text = Vec::new(alloc);
    write(&formula, &mut text)?;
    let mut memory = SteadyFiles::new(alloc);
    memory.put_file("IN", &text)?;
    let options = Options {
        bounds: Bounds::usual(),
        budget: None,
    };
    let mut alarm = Never::new();
    match simplify(
        alloc,
        &mut memory,
        formula,
        "OUT",
        "LOG",
        &options,
        guides,
        &mut alarm,
    ) {
        Ok(_) => Ok(memory),
        Err(_) => Err(NoMemory),
    }
}

// The check of the log. It fails for want of memory, or where the log is longer than any that may be read.
fn check_in_memory(alloc: Global, memory: &mut SteadyFiles) -> Result<Checked, NoMemory>
    ensures same { memory.new ≡ memory.old }
    ensures passes { IfOk result
        (FilesPass (record { undo = true; steps = false }) (bytes_at memory.old in_name)
        (bytes_at memory.old out_name) (bytes_at memory.old log_name)) }
    ensures back { IfOk result (λ c. LeadsBack true c.from c.to c.undo) }
{
    let names = Names {
        input: "IN",
        output: "OUT",
        log: "LOG",
    };
    let keep = Keep {
        undo: true,
        steps: false,
    };
    match verify(alloc, memory, names, keep) {
        Ok(checked) => Ok(checked),
        Err(_) => Err(NoMemory),
    }
}

/// Simplifies a formula without a budget, and checks the log.
pub fn reduce(
    alloc: Global,
    formula: Formula,
    guides: Vec<Box<dyn Guide>>,
) -> Result<Reduced, NoMemory>
    requires proper { IsProper formula }
    requires limits { IsInLimits standard formula }
    ensures { IfOk result (IsReducedTo formula) }
{
    written_within_limits_is_read();
    let mut memory = simplify_in_memory(alloc, formula, guides)?;
    let checked = check_in_memory(alloc, &mut memory)?;
    Ok(Reduced { memory, checked })
}
