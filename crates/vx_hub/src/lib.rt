//! The hub: it answers each call as the machine of `vx_call` does, and keeps of the history what the next replies need.
#![tactic(auto)]

mod counts;
mod hub;
mod look;
mod machine;
mod rows;
mod totals;
mod verticles;

pub use hub::Hub;
pub use look::Look;
pub use totals::Totals;
pub use verticles::{Back, DeployOptions, DeployRefused, FinishRefused, Taken, Why};
pub use vx_call::Unmade;
