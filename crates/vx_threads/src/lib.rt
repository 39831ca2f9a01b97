//! Threads whose results keep a promise, and what says whether one may be started.
#![tactic(auto)]

mod picky;
mod running;
mod spawner;
mod system;

pub use picky::PickySpawner;
pub use running::Running;
pub use spawner::{Spawner, start};
pub use system::ThreadSpawner;
