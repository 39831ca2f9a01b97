//! The calls that send: messages, requests, and replies to them.
#![tactic(auto)]

mod dispatch;
mod fail;
mod publish;
mod reply;
mod reply_request;
mod request;
mod send;

pub use dispatch::{is_sending_call, step};
