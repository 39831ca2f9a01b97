//! A machine of one number for the tests of the turn, and what threads do with it.
#![tactic(auto)]

mod label;
mod tally;
mod uses;

pub use label::{Label, Plain};
pub use tally::{Addition, Entry, Tally, Told};
pub use uses::{add_many, both, bump, bump_slowly, meet, try_bump, twin, wake};
