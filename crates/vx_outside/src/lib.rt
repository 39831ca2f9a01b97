//! What a host has of the system but its threads and sockets: files and a clock, as traits, with
//! their forms in memory and over the system's own.
#![tactic(auto)]

mod clock;
mod files;
mod host_clock;
mod host_files;
mod mem_clock;
mod mem_files;

pub use clock::Clock;
pub use files::{Files, LoadFault};
pub use host_clock::HostClock;
pub use host_files::HostFiles;
pub use mem_clock::MemClock;
pub use mem_files::MemFiles;
