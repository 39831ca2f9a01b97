ghost use Rattle.std.specs.Prelude.{◌≡◌, ◌≤◌, ℕ};

use vx_data::Moment;

/// A clock that never goes back.
pub trait Clock {
    /// Its last answer in milliseconds, 0 where it has given none.
    ghost last: { Self → ℕ };

    /// The moment that it is, never before the last answer.
    fn now(&mut self) -> Moment
        ensures later { last self.old ≤ result }
        ensures kept { last self.new ≡ result };

    /// Lets the time pass until that moment, if it is still to come. It is no answer.
    fn rest(&mut self, until: Moment)
        ensures { last self.new ≡ last self.old };
}
