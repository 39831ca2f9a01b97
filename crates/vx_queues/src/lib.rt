//! Queues of tasks that wait: a task is added and the next one found in the same time, however many wait.
#![tactic(auto)]

mod lanes;
mod queues;
mod tasks;

pub use queues::{Queue, Queues, Waiting};
pub use tasks::Which;
