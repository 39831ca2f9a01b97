ghost use Rattle.std.specs.Prelude.{◌≡◌, ◌↔◌, ◌≤◌, Err, IsTrue, OnOk, OnErr};
ghost use Rattle.std.specs.Option.{option_map};
ghost use Rattle.vx_io.specs.Faults.{Rose};
ghost use Rattle.vx_outside.specs.Loading.{Loads, content_of, load_fails, after_load};
ghost use Rattle.vx_outside.specs.declared.files.LoadFault.TheVariants.{Failed};

use crate::files::{Files, LoadFault};
use std::marker::Model;
use vx_data::Text;
use vx_io::Schedule;

/// Files in memory, of which those loads fail that are told to, or name no file.
#[derive(Drop)]
pub struct MemFiles {
    files: Vec<(Text, Vec<u8>)>,
    schedule: Schedule,
}

impl Model for MemFiles {
    ghost use Rattle.vx_outside.specs.Loading.{Folder};

    ghost Value = { Folder };

    ghost view = { λ s. record { files = s.files.items; plan = s.schedule } };
}

impl MemFiles {
    /// These files, each with its name; of two with one name the first counts. The loads whose
    /// numbers, from 0, are in `fails` fail.
    pub fn new(files: Vec<(Text, Vec<u8>)>, fails: Vec<u64>) -> MemFiles
        ensures files { result.files ≡ files.items }
        ensures plan { result.plan ≡ record { fails = fails.items; calls = 0; faults = 0 } }
    {
        MemFiles {
            files,
            schedule: Schedule::new(fails),
        }
    }

    // The bytes of the first file of a name.
    fn find(&self, name: &Text) -> Option<&[u8]>
        ensures { option_map (λ bytes. bytes.now) result ≡ content_of self.now.files name.now }
    {
        let file = self.files.iter().find(|file| name.is(&file.0))?;
        Some(&file.1)
    }
}

impl Files for MemFiles {
    ghost content = { λ s name. content_of s.files name };

    ghost faults = { λ s. s.plan.faults };

    /// Fails exactly where it is told to, or where no file has the name.
    fn load(&mut self, name: &Text, limit: u32, into: &mut Vec<u8>) -> Result<(), LoadFault>
        ensures fails { (result ≡ Err Failed) ↔ IsTrue (load_fails self.old name.now) }
        ensures plan { self.new.plan ≡ after_load self.old name.now }
        ensures files { self.new.files ≡ self.old.files }
        ensures bytes { OnOk result (Loads (content_of self.old.files name.now) limit into.old.items into.new.items) }
        ensures same { OnErr result (into.new.items ≡ into.old.items) }
        ensures later { self.old.plan.faults ≤ self.new.plan.faults }
        ensures cause { result ≡ Err Failed → Rose self.old.plan.faults self.new.plan.faults }
    {
        if self.schedule.next_fails() {
            return Err(LoadFault::Failed);
        }
        let Some(bytes) = self.find(name) else {
            self.schedule.add_fault();
            return Err(LoadFault::Failed);
        };
        let count = bytes.len().min(limit as usize + 1);
        match into.extend_from_slice(&bytes[..count]) {
            Ok(()) => Ok(()),
            Err(_) => Err(LoadFault::NoMemory),
        }
    }
}
