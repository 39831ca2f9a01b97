//! The steps of the lives of verticles: what each entry of a history makes of the store, why calls are refused, and the tasks
//! that tell of the lives.
#![tactic(auto)]

mod laws;
mod refusals;
mod tasks;

pub use laws::{
    all_is_said_once, deployments_are_added, ends_are_known, ends_are_noted, lives_begin,
    loops_stops_and_closing_are_noted, still_entries_leave_the_store,
    waiting_tasks_are_those_of_the_store, what_comes_is_said,
};
pub use refusals::{
    bad_loops, holder_stopping, no_deployment, start_not_pending, still_deployed, stop_not_pending,
    stopping,
};
pub use tasks::task_of;
