//! Timers: what is due at a moment, the earliest first. (Vert.x core manual, "Executing periodic and delayed actions".)
#![tactic(auto)]

mod names;
mod queue;
mod timers;

pub use timers::{Timer, Timers, fires_again_past_now};
