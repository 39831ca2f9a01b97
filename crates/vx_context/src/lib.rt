//! Contexts and worker pools, the tasks that wait for them, and those that passes hold.
#![tactic(auto)]

mod contexts;
mod lanes;
mod refusals;

pub use contexts::{Contexts, Kept};
pub use lanes::same_lane;
pub use refusals::{
    already_holding, closed, closed_if_named, context_closed, holder_closed, lane_held, no_context,
    no_lane, not_holding, not_your_context, not_your_lane,
};
