//! A net whose connections are a source and a sink each, in memory and over TCP.
#![tactic(auto)]

mod memory;
mod net;
mod tcp;

pub use memory::MemNet;
pub use net::Net;
pub use tcp::TcpNet;
