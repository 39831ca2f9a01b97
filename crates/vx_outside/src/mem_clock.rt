ghost use Rattle.std.specs.Prelude.{◌≡◌, ◌≤◌, max};

use crate::clock::Clock;
use std::marker::Model;
use vx_data::Moment;

/// A clock in memory, on which time passes by rests alone.
#[derive(Drop)]
pub struct MemClock {
    now: Moment,
    last: Moment,
}

impl Model for MemClock {
    ghost use Rattle.std.specs.Prelude.{◌≤◌};
    ghost use Rattle.vx_outside.specs.Clocks.{Times};

    ghost Value = { Times };

    ghost view = { λ clock. record { now = clock.now; last = clock.last } };

    ghost invariant = { λ clock. clock.last ≤ clock.now };
}

impl MemClock {
    /// A clock that has given no answer, at this moment.
    pub fn new(now: Moment) -> MemClock
        ensures { result ≡ record { now = now; last = 0 } }
    {
        MemClock {
            now,
            last: Moment::at(0),
        }
    }
}

impl Clock for MemClock {
    ghost last = { λ clock. clock.last };

    /// The moment that the rests have brought, or that it was made with.
    fn now(&mut self) -> Moment
        ensures answer { result ≡ self.old.now }
        ensures after { self.new ≡ record { now = self.old.now; last = self.old.now } }
        ensures later { self.old.last ≤ result }
        ensures kept { self.new.last ≡ result }
    {
        self.last = self.now;
        self.now
    }

    /// Sets the time to that moment where it is later.
    fn rest(&mut self, until: Moment)
        ensures { self.new ≡ record { now = max self.old.now until; last = self.old.last } }
    {
        if until.ms() > self.now.ms() {
            self.now = until;
        }
    }
}
