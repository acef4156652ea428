// What commands ask of the world: files by name and a place for lines. Everything above is proved over these two traits, with a
// disk, with memory, and with faults that are planned.
ghost use Rattle.std.specs.Prelude.{◌≡◌, ◌≤◌, ◌++◌, List, ℕ, Option, length, is_some, IfOk, OnOk, OnErr, IfSome, IsErrOf};
ghost use Rattle.q_io.specs.Files.{Disk, Later, OnlyReads, RoseFor, Reads, Empties, MayEmpty, Appends, AppendsPart, GrowsBy, GrowsByPart};
ghost use Rattle.q_logic.specs.Prelude.{Rose};

use crate::error::DeviceError;

/// The last place that a read may begin at: no file is longer than is read of it.
pub const LAST_PLACE: u64 = 1_099_511_627_776;

/// How many bytes of a file are read at once, or are pending before they are written.
pub const PIECE: usize = 65_536;

/// Files by name. A call fails only where a count of faults rose in it, or stands at the last number
/// that a u64 has; no count ever falls.
pub trait Files {
    /// The bytes of each name, where the store tells.
    ghost held: { Self → Option Disk };

    /// How often reading a name has failed.
    ghost read_faults: { Self → List ℕ → ℕ };

    /// How often creating or appending to a name has failed.
    ghost write_faults: { Self → List ℕ → ℕ };

    /// Copies bytes of the file from the place `at` on to the front of `buf`, and says how many.
    fn read(&mut self, name: &str, at: u64, buf: &mut [u8]) -> Result<usize, DeviceError>
        requires { at ≤ LAST_PLACE }
        ensures within { IfOk result (λ n. n ≤ length buf.old) }
        ensures bytes { IfOk result (λ n. IfSome (held self.old)
            (λ disk. Reads disk name.now at buf.old buf.new n)) }
        ensures cause { IsErrOf result DeviceError.Failed
            → RoseFor read_faults name.now self.old self.new }
        ensures only_reads { OnlyReads held read_faults write_faults self.old self.new };

    /// Makes the file, or empties it.
    fn create(&mut self, name: &str) -> Result<(), DeviceError>
        ensures told { is_some (held self.new) ≡ is_some (held self.old) }
        ensures empty { OnOk result (IfSome (held self.old) (λ disk. Empties name.now disk
            (held self.new))) }
        ensures err { OnErr result (IfSome (held self.old) (λ disk. MayEmpty name.now disk
            (held self.new))) }
        ensures cause { IsErrOf result DeviceError.Failed
            → RoseFor write_faults name.now self.old self.new }
        ensures later { Later read_faults write_faults self.old self.new };

    /// Puts all the bytes at the file's end. A name that is not held counts as an empty file.
    fn append(&mut self, name: &str, bytes: &[u8]) -> Result<(), DeviceError>
        ensures told { is_some (held self.new) ≡ is_some (held self.old) }
        ensures all { OnOk result (IfSome (held self.old) (λ disk. Appends name.now bytes.now disk
            (held self.new))) }
        ensures err { OnErr result
            (IfSome (held self.old) (λ disk. AppendsPart name.now bytes.now disk (held self.new))) }
        ensures cause { IsErrOf result DeviceError.Failed
            → RoseFor write_faults name.now self.old self.new }
        ensures later { Later read_faults write_faults self.old self.new };
}

/// A place where lines go. A call fails only where the count of faults rose in it, and finds no memory only where the count of
/// wants did, or where that count stands at the last number that a u64 has; neither count ever falls.
pub trait Sink {
    /// What was put, where the sink tells.
    ghost written: { Self → Option (List ℕ) };

    /// How often putting has failed.
    ghost faults: { Self → ℕ };

    /// How often memory was wanting for a put.
    ghost wants: { Self → ℕ };

    /// Puts all the bytes at the end.
    fn put(&mut self, bytes: &[u8]) -> Result<(), DeviceError>
        ensures told { is_some (written self.new) ≡ is_some (written self.old) }
        ensures all { OnOk result (IfSome (written self.old) (λ text. GrowsBy bytes.now text
            (written self.new))) }
        ensures err { OnErr result
            (IfSome (written self.old) (λ text. GrowsByPart bytes.now text (written self.new))) }
        ensures cause { IsErrOf result DeviceError.Failed
            → Rose (faults self.old) (faults self.new) }
        ensures want { IsErrOf result DeviceError.NoMemory
            → Rose (wants self.old) (wants self.new) }
        ensures later { (faults self.old ≤ faults self.new) × (wants self.old ≤ wants self.new) };
}
