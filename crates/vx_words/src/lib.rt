//! The words of a line of a script: what each says, which pass it names, and how a line ends.
#![tactic(auto)]

pub mod ending;
mod fault;
pub mod number;
pub mod pass;
pub mod piece;
pub mod token;
pub mod word;

pub use fault::{LineFault, MISFIT};
