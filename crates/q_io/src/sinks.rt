// Sinks in memory: one that never fails, and one with planned faults.
ghost use Rattle.std.specs.Prelude.{◌≡◌, ◌≤◌, ◌++◌, ◌∷◌, [], List, ℕ, Contains, IfOk, IsErrOf, OnErr, OnOk, Some};
ghost use Rattle.q_io.specs.Files.{GrowsBy, GrowsByPart};
ghost use Rattle.q_io.specs.Memory.{MemText, next};
ghost use Rattle.q_logic.specs.Prelude.{Rose};

use crate::error::DeviceError;
use crate::files::Sink;
use q_logic::NoMemory;
use std::alloc::Global;
use std::marker::Model;

/// A sink in memory that never fails.
#[derive(Drop)]
pub struct SteadySink {
    written: Vec<u8>,
    wants: u64,
}

impl Model for SteadySink {
    ghost use Rattle.q_io.specs.Memory.{SteadyText};

    ghost Value = { SteadyText };

    ghost view = { λ s. record { text = s.written.items; wants = s.wants } };
}

impl SteadySink {
    pub fn new(alloc: Global) -> SteadySink
        ensures { result ≡ record { text = []; wants = 0 } }
    {
        SteadySink {
            written: Vec::new(alloc),
            wants: 0,
        }
    }

    pub fn bytes(&self) -> &[u8]
        ensures { result.now ≡ self.now.text }
    {
        &self.written
    }
}

impl Sink for SteadySink {
    ghost written = { λ s. Some s.text };

    ghost faults = { λ _. 0 };

    ghost wants = { λ s. s.wants };

    fn put(&mut self, bytes: &[u8]) -> Result<(), DeviceError> {
        if self.written.extend_from_slice(bytes).is_err() {
            self.wants = self.wants.saturating_add(1);
            return Err(DeviceError::NoMemory);
        }
        Ok(())
    }
}

/// A sink in memory, with planned faults.
#[derive(Drop)]
pub struct MemSink {
    sink: SteadySink,
    planned: Vec<u64>,
    puts: u64,
    failures: u64,
}

impl Model for MemSink {
    ghost use Rattle.q_io.specs.Memory.{MemText};

    ghost Value = { MemText };

    ghost view = { λ s. record {
      text = s.sink.text;
      faults = s.failures;
      wants = s.sink.wants;
      planned = s.planned.items;
      puts = s.puts;
    } };
}

impl MemSink {
    pub fn new(alloc: Global) -> MemSink
        ensures empty { result.text ≡ [] }
        ensures counts { (result.faults ≡ 0) × (result.wants ≡ 0) × (result.puts ≡ 0) }
        ensures planned { result.planned ≡ [] }
    {
        MemSink {
            sink: SteadySink::new(alloc),
            planned: Vec::new(alloc),
            puts: 0,
            failures: 0,
        }
    }

    /// The `nth` put fails, counted from 1, and puts nothing.
    pub fn fail_at(&mut self, nth: u64) -> Result<(), NoMemory>
        ensures planned { OnOk result (self.new.planned ≡ self.old.planned ++ nth ∷ []) }
        ensures err { OnErr result (self.new ≡ self.old) }
        ensures rest { record self.new { planned = self.old.planned } ≡ self.old }
    {
        self.planned.push(nth)?;
        Ok(())
    }

    pub fn bytes(&self) -> &[u8]
        ensures { result.now ≡ self.now.text }
    {
        self.sink.bytes()
    }
}

impl Sink for MemSink {
    ghost written = { λ s. Some s.text };

    ghost faults = { λ s. s.faults };

    ghost wants = { λ s. s.wants };

    fn put(&mut self, bytes: &[u8]) -> Result<(), DeviceError>
        ensures counted { self.new.puts ≡ next self.old.puts }
        ensures plan { self.new.planned ≡ self.old.planned }
        ensures fails { Contains self.old.planned (next self.old.puts) →
            (result ≡ Err DeviceError.Failed) × (self.new.text ≡ self.old.text) }
        ensures not_else { IsErrOf result DeviceError.Failed
            → Contains self.old.planned (next self.old.puts) }
        ensures all { OnOk result (self.new.text ≡ self.old.text ++ bytes.now) }
        ensures err { OnErr result (GrowsByPart bytes.now self.old.text (Some self.new.text)) }
        ensures cause { IsErrOf result DeviceError.Failed → Rose self.old.faults self.new.faults }
        ensures want { IsErrOf result DeviceError.NoMemory → Rose self.old.wants self.new.wants }
        ensures later { (self.old.faults ≤ self.new.faults) × (self.old.wants ≤ self.new.wants) }
    {
        self.puts = self.puts.saturating_add(1);
        if self.planned.contains(&self.puts) {
            self.failures = self.failures.saturating_add(1);
            return Err(DeviceError::Failed);
        }
        self.sink.put(bytes)
    }
}
