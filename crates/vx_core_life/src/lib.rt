//! The calls by which verticles are deployed, start, stop and end.
#![tactic(auto)]

mod closing;
mod deploying;
mod dispatch;
mod ending;
mod ends;
mod laws;
mod loops;
mod moving;
mod over;
mod pools;
mod refusals;
mod undeploying;

pub use closing::close;
pub use deploying::deploy;
pub use dispatch::{is_life_call, step};
pub use ending::{finish, start_done, stop_done};
pub use laws::what_comes_is_made_ready;
pub use loops::{add_pool, set_loops};
pub use moving::move_on;
pub use refusals::undeploy_refusal;
pub use undeploying::undeploy;
