//! Consumers at each address of an event bus, who take turns.
#![tactic(auto)]

mod ring;
mod rings;

pub use rings::Rings;
