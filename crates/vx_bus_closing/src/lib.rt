//! What the event bus loses as a context closes, and as the hub closes. (Vert.x core manual, "Automatic clean-up in
//! verticles".)
#![tactic(auto)]

mod closing;

pub use closing::{close_bus, close_context};
