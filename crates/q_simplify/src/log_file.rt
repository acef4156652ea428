// The pending log goes into its file.
ghost use Rattle.std.specs.Prelude.{◌≡◌, ◌≤◌, ◌<◌, length, OnOk};
ghost use Rattle.q_kernel.specs.Prelude.{slots};
ghost use Rattle.q_simplify.specs.Logs.{LogGoesOn};

use q_io::{DeviceError, Files};
use q_kernel::Kernel;

/// Appends the pending log and clears it, where it has at least so many bytes.
pub(crate) fn flush<F: Files>(
    files: &mut F,
    name: &str,
    kernel: &mut Kernel,
    least: usize,
) -> Result<(), DeviceError>
    requires some { 1 ≤ least }
    ensures prefix { kernel.new.prefix ≡ kernel.old.prefix }
    ensures clauses { slots kernel.new ≡ slots kernel.old }
    ensures short { OnOk result (length kernel.new.text < least) }
    ensures goes_on { LogGoesOn F.held F.read_faults F.write_faults name.now result kernel.old
        kernel.new files.old files.new }
{
    if kernel.log().len() < least {
        return Ok(());
    }
    files.append(name, kernel.log())?;
    kernel.clear_log();
    Ok(())
}
