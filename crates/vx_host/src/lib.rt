//! A hub that any number of threads call, each by passes of its own. All calls of all passes stand in one history.
#![tactic(auto)]

mod host;
mod turns;

pub use host::{Applied, BusyCall, Host, Pass};
pub use vx_call::Unmade;
pub use vx_hub::{Back, DeployOptions, DeployRefused, FinishRefused, Look, Taken, Totals, Why};
pub use vx_turn::Spent;
