//! Servers that listen, and who of those at one host and port gets the next connection. (Vert.x core manual, "Scaling -
//! sharing TCP servers".)
#![tactic(auto)]

mod place;
mod servers;
mod turns;

pub use place::Place;
pub use servers::{Server, Servers};
