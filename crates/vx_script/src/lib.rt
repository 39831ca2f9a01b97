//! Scripts: lines of text that make calls of a hub, and a line of text for each reply.
#![tactic(auto)]

mod fault;
mod held;
mod laws;
mod limit;
mod lines;
mod playing;
mod running;
mod status;

pub use laws::scripts_are_read_as_spelled;
pub use limit::LIMIT;
pub use running::script;
pub use status::Status;
pub use vx_line::{LineWhy, lines_are_read_as_spelled};
pub use vx_reply_text::write_reply;
