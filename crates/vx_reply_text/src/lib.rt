//! The text of replies.
#![tactic(auto)]

mod pieces;
mod refusal;
mod reply;
mod text;

pub use reply::write_reply;
pub use text::append;
