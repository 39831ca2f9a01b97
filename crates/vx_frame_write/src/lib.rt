//! The bytes of a frame that goes out over the TCP EventBus bridge. (Vert.x TCP EventBus bridge manual, "Message format".)
#![tactic(auto)]

mod headers;
mod write;

pub use write::{write_frame, write_json};
