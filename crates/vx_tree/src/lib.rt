//! Deployments that are there, each with its parent, which of them were asked to end, and the contexts of their verticles
//! as these start and stop. (Vert.x core manual, "Asynchronous Verticle start and stop", "Undeploying verticle
//! deployments". That the ones below stop first is this project's own.)
#![tactic(auto)]

mod askings;
mod contexts;
mod node;
mod tree;

pub use contexts::{append, leave_out};
pub use node::Node;
pub use tree::{Tree, gone_ones_stay_gone, next_stops_come_in_order};
