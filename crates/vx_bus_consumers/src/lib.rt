//! The calls by which consumers come and go, pause and go on.
#![tactic(auto)]

mod dispatch;
mod flow;
mod register;
mod unregister;

pub use dispatch::{is_consumer_call, step};
