//! What is left of a formula is searched, and circuits of a true one are carried back to the input and written.
ghost use Rattle.std.specs.Prelude.{◌≡◌, true, IfSome};
ghost use Rattle.q_logic.specs.Prelude.{trees_of, SkolemOf};
ghost use Rattle.q_io.specs.Files.{RoseFor};
ghost use Rattle.q_command.specs.Checks.{LeadsBack};
ghost use Rattle.q_run_solve.specs.Solves.{Certifies, Concludes, Puts, failed_write};

use crate::solved::Solved;
use q_aig::Certificate;
use q_command::{Checked, write_circuits};
use q_io::{DeviceError, Files};
use q_rebuild::rebuild;
use q_solve::{Found, search};
use std::alloc::Global;

/// What there is to say of a file that could not be written.
pub fn unwritten(error: DeviceError) -> Solved
    ensures { result ≡ failed_write error }
{
    match error {
        DeviceError::Failed => Solved::WriteFault,
        DeviceError::NoMemory => Solved::NoMemory,
    }
}

// Creates CERT with the text of the circuits.
fn write_certificate<F: Files>(
    alloc: Global,
    files: &mut F,
    cert: &str,
    made: &Certificate,
) -> Solved
    ensures puts { IfSome (F.held files.old)
        (λ disk. Puts result made.now cert.now disk (F.held files.new)) }
    ensures reading { result ≡ Solved.ReadFault → ⊥ }
    ensures cause { result ≡ Solved.WriteFault
        → RoseFor F.write_faults cert.now files.old files.new }
{
    match write_circuits(alloc, files, cert, made) {
        Ok(gates) => Solved::True { gates },
        Err(error) => unwritten(error),
    }
}

// Carries the circuits back to the input, and writes them. Skolem functions are never refused, so only memory can be wanting.
fn certify<F: Files>(
    alloc: Global,
    files: &mut F,
    cert: &str,
    checked: &Checked,
    given: &mut Certificate,
) -> Solved
    requires back { LeadsBack true checked.now.from checked.now.to checked.now.undo }
    requires skolem { SkolemOf checked.now.to (trees_of given.old) }
    ensures certifies { IfSome (F.held files.old)
        (λ disk. Certifies result cert.now checked.now.from disk (F.held files.new)) }
    ensures reading { result ≡ Solved.ReadFault → ⊥ }
    ensures cause { result ≡ Solved.WriteFault
        → RoseFor F.write_faults cert.now files.old files.new }
{
    match rebuild(alloc, &checked.from, &checked.to, &checked.undo, given) {
        Ok(made) => write_certificate(alloc, files, cert, &made),
        Err(_) => Solved::NoMemory,
    }
}

/// Searches what is left of the formula, and writes the circuits of a true one.
pub fn conclude<F: Files>(
    alloc: Global,
    files: &mut F,
    cert: &str,
    checked: &Checked,
    budget: Option<u64>,
) -> Solved
    requires back { LeadsBack true checked.now.from checked.now.to checked.now.undo }
    ensures concludes { IfSome (F.held files.old) (λ disk.
        Concludes result cert.now budget checked.now.from checked.now.to disk (F.held files.new)) }
    ensures reading { result ≡ Solved.ReadFault → ⊥ }
    ensures cause { result ≡ Solved.WriteFault
        → RoseFor F.write_faults cert.now files.old files.new }
{
    match search(alloc, &checked.to, budget) {
        Ok(Found::Yes(mut given)) => certify(alloc, files, cert, checked, &mut given),
        Ok(Found::No) => Solved::False,
        Ok(Found::Unknown) => Solved::Unknown,
        Err(_) => Solved::NoMemory,
    }
}
