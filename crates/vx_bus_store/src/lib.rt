//! What the event bus keeps: consumers with their flows and turns, the messages and outcomes that wait, requests, what was
//! given out, codecs and rules. No call knows of a history; `specs/Stands.antt` says for which histories a store stands.
#![tactic(auto)]

mod bus;
mod flows;
mod interceptors;
mod leaving;

pub use bus::{Bus, Handler, Recipient, home_of, is_for};
