// Files that are written whole.
ghost use Rattle.std.specs.Prelude.{OnOk, OnErr, IfSome, IsErrOf};
ghost use Rattle.q_io.specs.Files.{HoldsBytes, Later, MayHoldFront, RoseFor};

use crate::error::DeviceError;
use crate::files::Files;

/// Creates the file with this text.
pub fn write_whole<F: Files>(files: &mut F, name: &str, text: &[u8]) -> Result<(), DeviceError>
    ensures whole { OnOk result (IfSome (F.held files.old)
        (λ disk. HoldsBytes name.now text.now disk (F.held files.new))) }
    ensures part { OnErr result (IfSome (F.held files.old)
        (λ disk. MayHoldFront name.now text.now disk (F.held files.new))) }
    ensures cause { IsErrOf result DeviceError.Failed
        → RoseFor F.write_faults name.now files.old files.new }
    ensures later { Later F.read_faults F.write_faults files.old files.new }
{
    files.create(name)?;
    files.append(name, text)
}
