ghost use Rattle.std.specs.Prelude.{◌≡◌, ◌≤◌, true, false};
ghost use Rattle.vx_io.specs.Faults.{Rose};
ghost use Rattle.vx_io.specs.Memory.{counted};

use crate::spawner::Spawner;
use std::marker::Model;

/// It admits each thread. Contracts see it as its count of faults.
#[derive(Drop)]
pub struct ThreadSpawner {
    faults: u64,
}

impl Model for ThreadSpawner {
    ghost use Rattle.std.specs.Prelude.{ℕ};

    ghost Value = { ℕ };

    ghost view = { λ s. s.faults };
}

impl ThreadSpawner {
    /// No start has failed.
    pub fn new() -> ThreadSpawner
        ensures { result ≡ 0 }
    {
        ThreadSpawner { faults: 0 }
    }
}

impl Spawner for ThreadSpawner {
    ghost faults = { λ s. s };

    /// Yes: the system may still have no thread.
    fn admits(&mut self) -> bool
        ensures admits { result ≡ true }
        ensures same { self.new ≡ self.old }
        ensures yes { result ≡ true → self.new ≡ self.old }
        ensures later { self.old ≤ self.new }
        ensures cause { result ≡ false → Rose self.old self.new }
    {
        true
    }

    /// Counts a fault. The count stays at 2^64 - 1.
    fn failed(&mut self)
        ensures counts { self.new ≡ counted self.old }
        ensures later { self.old ≤ self.new }
        ensures cause { Rose self.old self.new }
    {
        self.faults = self.faults.saturating_add(1);
    }
}
