//! A device that answers each read with a single byte, so that readers meet every cut of their bytes.
ghost use Rattle.std.specs.Prelude.{Some};

use q_io::{DeviceError, Files, MemFiles};

/// Files that give one byte at a time.
#[derive(Drop)]
pub struct Trickle {
    pub files: MemFiles,
}

impl Files for Trickle {
    ghost held = { λ t. Some t.files.disk };

    ghost read_faults = { λ t _. t.files.read_faults };

    ghost write_faults = { λ t _. t.files.write_faults };

    fn read(&mut self, name: &str, at: u64, buf: &mut [u8]) -> Result<usize, DeviceError> {
        let most = buf.len().min(1);
        self.files.read(name, at, &mut buf[..most])
    }

    fn create(&mut self, name: &str) -> Result<(), DeviceError> {
        self.files.create(name)
    }

    fn append(&mut self, name: &str, bytes: &[u8]) -> Result<(), DeviceError> {
        self.files.append(name, bytes)
    }
}
