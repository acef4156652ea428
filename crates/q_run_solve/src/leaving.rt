//! LOG and OUT are written, in this order, as `simplify` leaves them.
ghost use Rattle.std.specs.Prelude.{◌≡◌, ◌≢◌, [], ◌∷◌, OnOk, OnErr, IfSome, IsErrOf};
ghost use Rattle.q_io.specs.Files.{Later, RoseAmong, bytes_at};
ghost use Rattle.q_command.specs.FirstFaults.{FaultAt};
ghost use Rattle.q_run_solve.specs.Reduces.{HoldsBoth, MayHoldBoth, turns_of_both};

use q_io::{DeviceError, Files, SteadyFiles, write_whole};

/// The bytes of a name in memory.
pub fn text_of<'a>(memory: &'a SteadyFiles, name: &str) -> &'a [u8]
    ensures { result.now ≡ bytes_at memory.now name.now }
{
    match memory.file(name) {
        Some(text) => text,
        None => &[],
    }
}

/// Writes the log and then the output.
pub fn write_both<F: Files>(
    files: &mut F,
    output: &str,
    log: &str,
    out_text: &[u8],
    log_text: &[u8],
) -> Result<(), DeviceError>
    requires { output.now ≢ log.now }
    ensures whole { OnOk result (IfSome (F.held files.old)
        (λ disk. HoldsBoth output.now log.now out_text.now log_text.now disk (F.held files.new))) }
    ensures part { OnErr result
        (IfSome (F.held files.old) (λ disk.
        MayHoldBoth output.now log.now out_text.now log_text.now disk (F.held files.new))) }
    ensures later { Later F.read_faults F.write_faults files.old files.new }
    ensures cause { IsErrOf result DeviceError.Failed
        → RoseAmong F.write_faults (output.now ∷ log.now ∷ []) files.old files.new }
    ensures cause_at { IsErrOf result DeviceError.Failed
        → FaultAt F.write_faults (turns_of_both output.now log.now log_text.now)
        (F.held files.old) (F.held files.new) files.old files.new }
{
    match write_whole(files, log, log_text) {
        Ok(()) => {}
        Err(error) => return Err(error),
    }
    match write_whole(files, output, out_text) {
        Ok(()) => Ok(()),
        Err(error) => Err(error),
    }
}
