//! The flow of one consumer: whether a message that reaches it is ready, held or lost.
#![tactic(auto)]

mod flow;

pub use flow::{Arrive, Flow};
