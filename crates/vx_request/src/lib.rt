//! Requests that wait for their outcome, the entry at which each other one ended, and which messages were given out to
//! a handler. (Vert.x core manual, "Acknowledging messages / sending replies".)
#![tactic(auto)]

mod first;
mod given;
mod leaver;
mod requests;

pub use given::GivenOut;
pub use leaver::Leaver;
pub use requests::{OpenRequest, Requests, ends_with, fails_with};
