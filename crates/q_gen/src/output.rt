// The file of `gen`: the canonical text of the formula, created and written in one piece.
ghost use Rattle.std.specs.Prelude.{◌≡◌, ◌≤◌, OnOk, OnErr, IsErrOf, IfSome};
ghost use Rattle.q_io.specs.Files.{Later, RoseFor};
ghost use Rattle.q_gen.specs.Outputs.{HoldsGenerated, HoldsGeneratedPart};

use crate::formula::generate;
use q_dimacs::write;
use q_io::{DeviceError, Files};
use std::alloc::Global;

/// Creates the file with the canonical text of the formula of this seed and this size.
pub fn write_generated<F: Files>(
    alloc: Global,
    files: &mut F,
    name: &str,
    seed: u64,
    size: u32,
) -> Result<(), DeviceError>
    requires { size ≤ 100000 }
    ensures whole { OnOk result (IfSome (F.held files.old)
        (λ disk. HoldsGenerated name.now seed size disk (F.held files.new))) }
    ensures part { OnErr result (IfSome (F.held files.old)
        (λ disk. HoldsGeneratedPart name.now seed size disk (F.held files.new))) }
    ensures cause { IsErrOf result DeviceError.Failed
        → RoseFor F.write_faults name.now files.old files.new }
    ensures later { Later F.read_faults F.write_faults files.old files.new }
{
    let Ok(formula) = generate(alloc, seed, size) else {
        return Err(DeviceError::NoMemory);
    };
    let mut text = Vec::new(alloc);
    let Ok(()) = write(&formula, &mut text) else {
        return Err(DeviceError::NoMemory);
    };
    files.create(name)?;
    files.append(name, &text)
}
