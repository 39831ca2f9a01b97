//! The system's files. What they hold is taken on trust: here the faults are counted, and the bytes
//! appended.
ghost use Rattle.std.specs.Prelude.{◌≡◌, ◌+◌, ◌≤◌, if◌then◌else◌, IfOk, OnOk, OnErr, None, Err, length, is_err};
ghost use Rattle.vx_io.specs.Faults.{Rose};
ghost use Rattle.vx_io.specs.Memory.{counted};
ghost use Rattle.vx_outside.specs.Loading.{Loads};
ghost use Rattle.vx_outside.specs.declared.files.LoadFault.TheVariants.{Failed};

use crate::files::{Files, LoadFault};
use std::alloc::Global;
use std::fs;
use std::io::Read;
use std::marker::Model;
use vx_data::Text;
use vx_io::{ReadAllFault, StdSource, read_all};

/// Files of a file system, by their paths. Contracts see it as its count of faults.
#[derive(Drop)]
pub struct HostFiles<R: fs::Files + Drop> {
    system: R,
    alloc: Global,
    faults: u64,
}

impl<R: fs::Files + Drop> Model for HostFiles<R> {
    ghost use Rattle.std.specs.Prelude.{ℕ};

    ghost Value = { ℕ };

    ghost view = { λ s. s.faults };
}

impl<R: fs::Files + Drop> HostFiles<R> {
    /// The files of this file system. No load has failed.
    pub fn new(system: R, alloc: Global) -> HostFiles<R>
        ensures { result ≡ 0 }
    {
        HostFiles {
            system,
            alloc,
            faults: 0,
        }
    }

    // The file's first `most` bytes.
    fn front(&self, name: &Text, most: usize) -> Result<Vec<u8>, LoadFault>
        ensures { IfOk result (λ bytes. length bytes.items ≤ most) }
    {
        let Ok(file) = fs::open(&self.system, name.as_str()) else {
            return Err(LoadFault::Failed);
        };
        let mut front = StdSource::new(file.take(most as u64));
        match read_all(self.alloc, &mut front, most) {
            Ok(bytes) => Ok(bytes),
            Err(ReadAllFault::NoMemory) => Err(LoadFault::NoMemory),
            Err(_) => Err(LoadFault::Failed),
        }
    }
}

impl<R: fs::Files + Drop> Files for HostFiles<R> {
    ghost content = { λ _ _. None };

    ghost faults = { λ s. s };

    /// Counts a fault exactly where it fails. The count stays at 2^64 - 1.
    fn load(&mut self, name: &Text, limit: u32, into: &mut Vec<u8>) -> Result<(), LoadFault>
        ensures faults { result ≡ Err Failed → self.new ≡ counted self.old }
        ensures others { ¬ (result ≡ Err Failed) → self.new ≡ self.old }
        ensures bytes { OnOk result (Loads None limit into.old.items into.new.items) }
        ensures same { OnErr result (into.new.items ≡ into.old.items) }
        ensures later { self.old ≤ self.new }
        ensures cause { result ≡ Err Failed → Rose self.old self.new }
    {
        let bytes = match self.front(name, limit as usize + 1) {
            Ok(bytes) => bytes,
            Err(LoadFault::Failed) => {
                self.faults = self.faults.saturating_add(1);
                return Err(LoadFault::Failed);
            }
            Err(LoadFault::NoMemory) => return Err(LoadFault::NoMemory),
        };
        match into.extend_from_slice(&bytes) {
            Ok(()) => Ok(()),
            Err(_) => Err(LoadFault::NoMemory),
        }
    }
}
