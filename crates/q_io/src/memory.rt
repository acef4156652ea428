// Files in memory with planned faults, for tests and for callers in the same process.
ghost use Rattle.std.specs.Prelude.{◌≡◌, ◌≤◌, ◌-◌, ◌++◌, ◌∷◌, ◌⊎◌, [], length, min, take, option_copied, IfOk, IfSome, IsErr, IsErrOf, IsSome, OnOk, OnErr, Some};
ghost use Rattle.std.specs.FinMap as map;
ghost use Rattle.q_io.specs.Files.{Appends, AppendsPart, Empties, MayEmpty, OthersStay, Reads, bytes_at};
ghost use Rattle.q_io.specs.Memory.{MemDisk, SamePlan, is_of, next, part_of};
ghost use Rattle.q_logic.specs.Prelude.{Rose};

use crate::error::DeviceError;
use crate::files::Files;
use crate::steady::SteadyFiles;
use q_logic::NoMemory;
use std::alloc::Global;
use std::marker::Model;

/// The kinds of call that a fault can be planned for.
#[derive(Clone, Copy, Debug, PartialEq, Eq)]
pub enum Call {
    Read,
    Create,
    Append,
}

/// The `nth` call of a kind fails, counted from 1. A failing append first stores the first `part`
/// bytes; a failing read or create changes nothing.
#[derive(Clone, Copy, Debug, PartialEq, Eq)]
pub struct Fault {
    pub call: Call,
    pub nth: u64,
    pub part: usize,
}

/// Files in memory, with planned faults. A read of a name that is not held fails too.
#[derive(Drop)]
pub struct MemFiles {
    files: SteadyFiles,
    planned: Vec<Fault>,
    reads: u64,
    creates: u64,
    appends: u64,
    read_failures: u64,
    write_failures: u64,
}

impl Model for MemFiles {
    ghost use Rattle.q_io.specs.Memory.{MemDisk, mem_code};

    ghost Value = { MemDisk };

    ghost coded = { mem_code };

    ghost view = { λ m. record {
      disk = m.files;
      read_faults = m.read_failures;
      write_faults = m.write_failures;
      planned = m.planned.items;
      reads = m.reads;
      creates = m.creates;
      appends = m.appends;
    } };
}

// Whether this fault is of this call.
fn is_for(fault: &Fault, call: Call, nth: u64) -> bool
    ensures { result ≡ is_of fault.now call nth }
{
    fault.call == call && fault.nth == nth
}

// How many bytes the planned fault of this call lets it store, if it is to fail.
fn planned_part(planned: &[Fault], call: Call, nth: u64) -> Option<usize>
    ensures { result ≡ part_of planned.now call nth }
{
    for fault in planned {
        if is_for(fault, call, nth) {
            return Some(fault.part);
        }
    }
    None
}

impl MemFiles {
    pub fn new(alloc: Global) -> MemFiles
        ensures empty { result.disk ≡ map.empty }
        ensures faults { (result.read_faults ≡ 0) × (result.write_faults ≡ 0) }
        ensures planned { result.planned ≡ [] }
        ensures calls { (result.reads ≡ 0) × (result.creates ≡ 0) × (result.appends ≡ 0) }
    {
        MemFiles {
            files: SteadyFiles::new(alloc),
            planned: Vec::new(alloc),
            reads: 0,
            creates: 0,
            appends: 0,
            read_failures: 0,
            write_failures: 0,
        }
    }

    pub fn put_file(&mut self, name: &str, bytes: &[u8]) -> Result<(), NoMemory>
        ensures stored { OnOk result (map.get self.new.disk name.now ≡ Some bytes.now) }
        ensures others { OnOk result (OthersStay name.now self.old.disk self.new.disk) }
        ensures err { OnErr result (self.new.disk ≡ self.old.disk) }
        ensures faults { (self.new.read_faults ≡ self.old.read_faults)
            × (self.new.write_faults ≡ self.old.write_faults) }
        ensures plan { SamePlan self.old self.new }
    {
        self.files.put_file(name, bytes)
    }

    pub fn file(&self, name: &str) -> Option<&[u8]>
        ensures { option_copied result ≡ map.get self.now.disk name.now }
    {
        self.files.file(name)
    }

    /// Plans one more fault.
    pub fn fail_at(&mut self, fault: Fault) -> Result<(), NoMemory>
        ensures planned { OnOk result (self.new.planned ≡ self.old.planned ++ fault ∷ []) }
        ensures err { OnErr result (self.new.planned ≡ self.old.planned) }
        ensures rest { record self.new { planned = self.old.planned } ≡ self.old }
    {
        self.planned.push(fault)?;
        Ok(())
    }
}

impl Files for MemFiles {
    ghost held = { λ m. Some m.disk };

    ghost read_faults = { λ m _. m.read_faults };

    ghost write_faults = { λ m _. m.write_faults };

    fn read(&mut self, name: &str, at: u64, buf: &mut [u8]) -> Result<usize, DeviceError>
        ensures missing { map.get self.old.disk name.now ≡ None → result ≡ Err DeviceError.Failed }
        ensures count { IfOk result (λ n. n ≡ min (length buf.old)
            (length (bytes_at self.old.disk name.now) - at)) }
        ensures bytes { IfOk result (λ n. Reads self.old.disk name.now at buf.old buf.new n) }
        ensures held { self.new.disk ≡ self.old.disk }
        ensures cause { IsErrOf result DeviceError.Failed
            → Rose self.old.read_faults self.new.read_faults }
        ensures later { (self.old.read_faults ≤ self.new.read_faults)
            × (self.new.write_faults ≡ self.old.write_faults) }
        ensures counted { (self.new.reads ≡ next self.old.reads)
            × (self.new.creates ≡ self.old.creates)
            × (self.new.appends ≡ self.old.appends) }
        ensures plan { self.new.planned ≡ self.old.planned }
        ensures fails { IsSome (part_of self.old.planned Call.Read (next self.old.reads)) →
            (result ≡ Err DeviceError.Failed) × (buf.new ≡ buf.old) }
        ensures not_else { IsErrOf result DeviceError.Failed →
            IsSome (part_of self.old.planned Call.Read (next self.old.reads))
            ⊎ (map.get self.old.disk name.now ≡ None) }
    {
        self.reads = self.reads.saturating_add(1);
        let is_planned = planned_part(&self.planned, Call::Read, self.reads).is_some();
        if is_planned || self.files.file(name).is_none() {
            self.read_failures = self.read_failures.saturating_add(1);
            return Err(DeviceError::Failed);
        }
        self.files.read(name, at, buf)
    }

    fn create(&mut self, name: &str) -> Result<(), DeviceError>
        ensures empty { OnOk result (Empties name.now self.old.disk (Some self.new.disk)) }
        ensures err { OnErr result (MayEmpty name.now self.old.disk (Some self.new.disk)) }
        ensures cause { IsErrOf result DeviceError.Failed
            → Rose self.old.write_faults self.new.write_faults }
        ensures later { (self.old.write_faults ≤ self.new.write_faults)
            × (self.new.read_faults ≡ self.old.read_faults) }
        ensures counted { (self.new.reads ≡ self.old.reads)
            × (self.new.creates ≡ next self.old.creates)
            × (self.new.appends ≡ self.old.appends) }
        ensures plan { self.new.planned ≡ self.old.planned }
        ensures fails { IsSome (part_of self.old.planned Call.Create (next self.old.creates)) →
            (result ≡ Err DeviceError.Failed) × (self.new.disk ≡ self.old.disk) }
        ensures not_else { IsErrOf result DeviceError.Failed →
            IsSome (part_of self.old.planned Call.Create (next self.old.creates)) }
    {
        self.creates = self.creates.saturating_add(1);
        if planned_part(&self.planned, Call::Create, self.creates).is_some() {
            self.write_failures = self.write_failures.saturating_add(1);
            return Err(DeviceError::Failed);
        }
        self.files.create(name)
    }

    fn append(&mut self, name: &str, bytes: &[u8]) -> Result<(), DeviceError>
        ensures all { OnOk result (Appends name.now bytes.now self.old.disk (Some self.new.disk)) }
        ensures err { OnErr result (AppendsPart name.now bytes.now self.old.disk
            (Some self.new.disk)) }
        ensures cause { IsErrOf result DeviceError.Failed
            → Rose self.old.write_faults self.new.write_faults }
        ensures later { (self.old.write_faults ≤ self.new.write_faults)
            × (self.new.read_faults ≡ self.old.read_faults) }
        ensures counted { (self.new.reads ≡ self.old.reads) × (self.new.creates ≡ self.old.creates)
            × (self.new.appends ≡ next self.old.appends) }
        ensures plan { self.new.planned ≡ self.old.planned }
        ensures fails { IfSome (part_of self.old.planned Call.Append (next self.old.appends))
            (λ part. IsErr result
            × (result ≡ Err DeviceError.Failed → bytes_at self.new.disk name.now
            ≡ bytes_at self.old.disk name.now ++ take part bytes.now)) }
        ensures not_else { IsErrOf result DeviceError.Failed →
            IsSome (part_of self.old.planned Call.Append (next self.old.appends)) }
    {
        self.appends = self.appends.saturating_add(1);
        match planned_part(&self.planned, Call::Append, self.appends) {
            Some(part) => {
                let stored = part.min(bytes.len());
                self.files.append(name, &bytes[..stored])?;
                self.write_failures = self.write_failures.saturating_add(1);
                Err(DeviceError::Failed)
            }
            None => self.files.append(name, bytes),
        }
    }
}
