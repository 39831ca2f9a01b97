//! Verticles: what they are told, what they do, and what makes them.
#![tactic(auto)]

mod acts;
mod kinds;
mod no_once;
mod once;
mod plain;
mod plain_acts;
mod verticle;

pub use acts::{Act, ActFault, ActRefused, Acts, MAX_ACTS};
pub use kinds::{KindFault, Kinds};
pub use no_once::NoOnce;
pub use once::{Once, OnceEnd, OnceInput, OnceRule};
pub use plain::PlainAct;
pub use plain_acts::PlainActs;
pub use verticle::{ActResult, Event, Verticle};
pub use vx_call::{End, Reply, Task};
pub use vx_message::KindSpec;
