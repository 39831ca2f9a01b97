//! The tasks of lanes are handed out: those of the event bus, and those that tell of the lives of verticles.
#![tactic(auto)]

mod laws;
mod taking;

pub use laws::named_contexts_are_there;
pub use taking::take;
