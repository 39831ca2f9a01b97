//! A line of a script: what it has done, or why it is bad.
#![tactic(auto)]

mod command;
mod deploying;
mod fault;
mod instruction;
mod laws;
mod line;
mod options;
mod reasons;
mod scope;
mod tables;

pub use command::Command;
pub use fault::LineWhy;
pub use instruction::{DeployOptions, Instruction};
pub use laws::lines_are_read_as_spelled;
pub use line::read_line;
pub use reasons::reason;
pub use scope::Scope;
