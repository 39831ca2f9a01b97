//! Items that stand in lists. An item is added, moved and taken out in the same time, however many there are; none of the
//! lists is walked for it.
#![tactic(auto)]

mod links;
mod nodes;
mod steps;
mod store;

pub use links::Links;
pub use steps::Steps;
pub use store::{ItemId, ListId, Store};
