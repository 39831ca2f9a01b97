//! The calls of the event bus: one `step` over its groups. Codecs and rules come and go here.
#![tactic(auto)]

mod dispatch;
mod interceptors;

pub use dispatch::step;
pub use vx_bus_delivery::time_out;
pub use vx_bus_store::Bus;
