//! How messages reach consumers, and how requests end: what the calls of the bus, and the time, do to the stores.
#![tactic(auto)]

mod deliver;
mod leaving;
mod outcomes;
mod passages;
mod timing;

pub use deliver::{destination, hand, make_room, pass_on};
pub use leaving::end_requests;
pub use outcomes::{no_handlers, put_outcome, replied, settle};
pub use passages::{Passage, passage_for};
pub use timing::time_out;
