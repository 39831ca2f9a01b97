ghost use Rattle.std.specs.Prelude.{◌≡◌, ◌≤◌, ℕ, true, false, IfOk, OnOk, IfErr};
ghost use Rattle.vx_io.specs.Faults.{Rose, HasCause};

use crate::running::Running;
use std::thread;
use std::thread::{Promise, SpawnError, Threads};

/// It says which threads may be started, and counts the starts that failed. `start` asks it.
pub trait Spawner {
    /// How many starts have failed.
    ghost faults: { Self → ℕ };

    /// Whether the next thread may be started. If not, the start has failed, and is counted.
    fn admits(&mut self) -> bool
        ensures yes { result ≡ true → faults self.new ≡ faults self.old }
        ensures later { faults self.old ≤ faults self.new }
        ensures cause { result ≡ false → Rose (faults self.old) (faults self.new) };

    /// Counts a start that was admitted, and for which the system had no thread.
    fn failed(&mut self)
        ensures later { faults self.old ≤ faults self.new }
        ensures cause { Rose (faults self.old) (faults self.new) };
}

/// Starts a thread that does this work, each answer of which keeps the promise. The work comes back
/// only where the spawner's count of faults rose; the caller may then do it itself, and its answer
/// keeps the promise too.
pub fn start<
    R: Threads,
    P: Spawner,
    T: Send + Drop + 'static,
    Q: Promise<T> + Drop,
    F: FnOnce() -> T + Send + 'static,
>(spawner: &mut P, rt: &R, promise: Q, work: F) -> Result<Running<T, Q>, F>
    requires runs { F.pre work }
    requires keeps { (answer : T) → F.post work answer → Q.kept_by promise answer }
    ensures promise { IfOk result (λ running. running ≡ promise) }
    ensures work { IfErr result (λ back. back ≡ work) }
    ensures same { OnOk result (P.faults spawner.new ≡ P.faults spawner.old) }
    ensures cause { HasCause (P.faults spawner.old) (P.faults spawner.new) result }
{
    if !spawner.admits() {
        return Err(work);
    }
    match thread::spawn_with(rt, promise, work) {
        Ok(handle) => Ok(Running::new(handle)),
        Err(SpawnError { value }) => {
            spawner.failed();
            Err(value)
        }
    }
}
