// Files in memory that never fail, so that what a command answers on them is what it answers where no fault comes.
ghost use Rattle.std.specs.Prelude.{◌≡◌, ◌-◌, List, ℕ, length, min, option_copied, IfOk, OnOk, OnErr, Ok, Some};
ghost use Rattle.std.specs.FinMap as map;
ghost use Rattle.q_io.specs.Files.{Disk, OthersStay, Reads, bytes_at};

use crate::error::DeviceError;
use crate::files::Files;
use crate::names::{Names, copy_from, extend, store};
use q_logic::NoMemory;
use std::alloc::Global;
use std::collections::BTreeMap;
use std::marker::Model;

/// Files in memory that never fail: no count of faults ever rises.
#[derive(Drop)]
pub struct SteadyFiles {
    alloc: Global,
    names: Names,
}

impl Model for SteadyFiles {
    ghost use Rattle.std.specs.FinMap as map;
    ghost use Rattle.std.specs.Coded.{coded_ℕ, coded_list};
    ghost use Rattle.q_io.specs.Files.{Disk};
    ghost use Rattle.q_io.specs.Memory.{disk_of};

    ghost Value = { Disk };

    ghost coded = { map.code (coded_list coded_ℕ) (coded_list coded_ℕ) };

    ghost view = { λ m. disk_of m.names };
}

impl SteadyFiles {
    pub fn new(alloc: Global) -> SteadyFiles
        ensures { result ≡ map.empty }
    {
        SteadyFiles {
            alloc,
            names: BTreeMap::new(alloc),
        }
    }

    pub fn put_file(&mut self, name: &str, bytes: &[u8]) -> Result<(), NoMemory>
        ensures stored { OnOk result (map.get self.new name.now ≡ Some bytes.now) }
        ensures others { OnOk result (OthersStay name.now self.old self.new) }
        ensures err { OnErr result (self.new ≡ self.old) }
    {
        store(self.alloc, &mut self.names, name, bytes)?;
        Ok(())
    }

    pub fn file(&self, name: &str) -> Option<&[u8]>
        ensures { option_copied result ≡ map.get self.now name.now }
    {
        match self.names.get(name) {
            Some(bytes) => Some(bytes.as_slice()),
            None => None,
        }
    }
}

impl Files for SteadyFiles {
    ghost held = { λ m. Some m };

    ghost read_faults = { λ _ _. 0 };

    ghost write_faults = { λ _ _. 0 };

    fn read(&mut self, name: &str, at: u64, buf: &mut [u8]) -> Result<usize, DeviceError>
        ensures count { result ≡ Ok
            (min (length buf.old) (length (bytes_at self.old name.now) - at)) }
        ensures bytes { IfOk result (λ n. Reads self.old name.now at buf.old buf.new n) }
        ensures held { self.new ≡ self.old }
    {
        let Some(bytes) = self.names.get(name) else {
            return Ok(0);
        };
        Ok(copy_from(bytes, at, buf))
    }

    fn create(&mut self, name: &str) -> Result<(), DeviceError> {
        store(self.alloc, &mut self.names, name, &[])?;
        Ok(())
    }

    fn append(&mut self, name: &str, bytes: &[u8]) -> Result<(), DeviceError> {
        extend(self.alloc, &mut self.names, name, bytes)?;
        Ok(())
    }
}
