//! Laws of every legal history of the Vert.x machine, which the machine's definitions alone imply.
#![tactic(auto)]

mod laws;

pub use laws::{
    deployments_end_in_order, ended_consumers_take_nothing, handlers_never_overlap,
    handlers_take_turns, loops_never_overlap, messages_are_delivered_once,
    messages_are_taken_as_fetched, messages_are_taken_in_order, requests_end_once,
    timers_fire_in_time,
};
