//! The system's clock. What it reads, and how long it sleeps, is taken on trust.
ghost use Rattle.std.specs.Prelude.{◌≡◌, ◌≤◌, IfOk};

use crate::clock::Clock;
use std::marker::Model;
use std::time::{Duration, Instant};
use std::{io, thread, time};
use vx_data::Moment;

/// The milliseconds since it was made, by the system's clock that is never set back. Contracts see it
/// as its last answer.
#[derive(Drop)]
pub struct HostClock<R: time::Clock + Drop> {
    system: R,
    start: Instant,
    last: Moment,
}

impl<R: time::Clock + Drop> Model for HostClock<R> {
    ghost use Rattle.std.specs.Prelude.{ℕ};

    ghost Value = { ℕ };

    ghost view = { λ clock. clock.last };
}

impl<R: time::Clock + Drop> HostClock<R> {
    /// A clock that has given no answer, and begins at 0 now. It fails where the system's clock can't
    /// be read.
    pub fn new(system: R) -> io::Result<HostClock<R>>
        ensures { IfOk result (λ clock. clock ≡ 0) }
    {
        let start = Instant::now(&system)?;
        Ok(HostClock {
            system,
            start,
            last: Moment::at(0),
        })
    }

    // The moment that it is, or the last answer where that is later or the system's clock can't be read.
    fn reading(&self) -> Moment
        ensures { self.now ≤ result }
    {
        match self.start.elapsed(&self.system) {
            Ok(elapsed) => {
                let ms = u64::try_from(elapsed.as_millis()).unwrap_or(u64::MAX);
                Moment::at(ms.max(self.last.ms()))
            }
            Err(_) => self.last,
        }
    }
}

impl<R: time::Clock + Drop> Clock for HostClock<R> {
    ghost last = { λ clock. clock };

    /// The milliseconds since it was made, or the last answer where that is later.
    fn now(&mut self) -> Moment {
        let now = self.reading();
        self.last = now;
        now
    }

    /// Sleeps until that moment, if it is still to come.
    fn rest(&mut self, until: Moment) {
        let now = self.reading();
        let still = until.ms().saturating_sub(now.ms());
        if still > 0 {
            thread::sleep(&self.system, Duration::from_millis(still));
        }
    }
}
