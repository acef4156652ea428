// `gen`: the formula of a seed and a size goes into its file.
ghost use Rattle.std.specs.Prelude.{◌≡◌, ◌≤◌, IfSome};
ghost use Rattle.q_io.specs.Files.{Later, RoseFor};
ghost use Rattle.q_app.specs.Generating.{Generates};

use crate::generated::Generated;
use crate::words::Scale;
use q_gen::write_generated;
use q_io::{DeviceError, Files};
use std::alloc::Global;

/// What there is to say of `gen` over the file of this name.
pub(crate) fn generate_file<F: Files>(
    alloc: Global,
    files: &mut F,
    scale: Scale,
    output: &str,
) -> Generated
    requires { scale.size ≤ 100000 }
    ensures generates { IfSome (F.held files.old) (λ disk.
        Generates result scale output.now disk (F.held files.new)) }
    ensures later { Later F.read_faults F.write_faults files.old files.new }
    ensures write_fault { result ≡ Generated.WriteFault
        → RoseFor F.write_faults output.now files.old files.new }
{
    match write_generated(alloc, files, output, scale.seed, scale.size) {
        Ok(()) => Generated::Written { size: scale.size },
        Err(DeviceError::Failed) => Generated::WriteFault,
        Err(DeviceError::NoMemory) => Generated::NoMemory,
    }
}
