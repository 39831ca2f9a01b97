ghost use Rattle.std.specs.Prelude.{◌≡◌, ◌≤◌, ℕ, List, Option, OnOk, OnErr, IsErrOf};
ghost use Rattle.vx_io.specs.Faults.{Rose};
ghost use Rattle.vx_outside.specs.Loading.{Loads};

use vx_data::Text;

/// Why a file was not loaded.
#[derive(Clone, Copy, PartialEq, Eq)]
pub enum LoadFault {
    /// The load did not work, and the count of faults rose.
    Failed,
    NoMemory,
}

/// Files by their names.
pub trait Files {
    /// The bytes of the file of a name, where they are told.
    ghost content: { Self → List ℕ → Option (List ℕ) };

    /// How many loads have failed.
    ghost faults: { Self → ℕ };

    /// Appends a file's bytes to `into`, of a file with more than `limit` bytes the first `limit + 1`:
    /// so one byte more than the limit tells that a file is too long. A load that failed, or found no
    /// memory, leaves `into` as it was. One that failed is counted.
    fn load(&mut self, name: &Text, limit: u32, into: &mut Vec<u8>) -> Result<(), LoadFault>
        ensures bytes { OnOk result (Loads (content self.old name.now) limit into.old.items into.new.items) }
        ensures same { OnErr result (into.new.items ≡ into.old.items) }
        ensures later { faults self.old ≤ faults self.new }
        ensures cause { IsErrOf result LoadFault.Failed → Rose (faults self.old) (faults self.new) };
}
