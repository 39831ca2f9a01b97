//! Frames that wait to go out on connections of the bridge. (Vert.x TCP EventBus bridge manual. That frames wait until they
//! are taken, and how many may, is this project's own.)
#![tactic(auto)]

mod outs;
mod queues;

pub use outs::{MAX_WAITING, Outs};
pub use queues::Queues;
