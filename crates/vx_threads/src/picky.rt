ghost use Rattle.std.specs.Prelude.{◌≡◌, ◌≤◌, true, false, not};
ghost use Rattle.vx_io.specs.Faults.{Rose};
ghost use Rattle.vx_io.specs.Memory.{fails_next, after_call, after_fault};

use crate::spawner::Spawner;
use std::marker::Model;
use vx_io::Schedule;

/// It refuses the threads that it is told to. Contracts see it as its plan.
#[derive(Drop)]
pub struct PickySpawner {
    schedule: Schedule,
}

impl Model for PickySpawner {
    ghost use Rattle.vx_io.specs.Memory.{Plan};

    ghost Value = { Plan };

    ghost view = { λ s. s.schedule };
}

impl PickySpawner {
    /// It refuses the starts whose numbers, from 0, are in `fails`, and no others.
    pub fn new(fails: Vec<u64>) -> PickySpawner
        ensures { result ≡ record { fails = fails.items; calls = 0; faults = 0 } }
    {
        PickySpawner {
            schedule: Schedule::new(fails),
        }
    }
}

impl Spawner for PickySpawner {
    ghost faults = { λ s. s.faults };

    /// No exactly where it is told to refuse.
    fn admits(&mut self) -> bool
        ensures admits { result ≡ not (fails_next self.old) }
        ensures plan { self.new ≡ after_call self.old }
        ensures yes { result ≡ true → self.new.faults ≡ self.old.faults }
        ensures later { self.old.faults ≤ self.new.faults }
        ensures cause { result ≡ false → Rose self.old.faults self.new.faults }
    {
        !self.schedule.next_fails()
    }

    /// Counts a fault that it was not told of.
    fn failed(&mut self)
        ensures plan { self.new ≡ after_fault self.old }
        ensures later { self.old.faults ≤ self.new.faults }
        ensures cause { Rose self.old.faults self.new.faults }
    {
        self.schedule.add_fault();
    }
}
