//! The deployment file: what a host runs, read from JSON and written as JSON.
#![tactic(auto)]

mod deployment;
mod fault;
mod field;
mod file;
mod kinds;
mod outline;
mod pool;
mod read;
mod write;

pub use fault::{FileRefused, FileWhy, Place};
pub use file::{DeployFile, Planned, PoolPlan};
pub use read::{MAX_FILE_BYTES, read_file};
pub use write::write_file;
