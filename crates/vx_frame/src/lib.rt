//! Frames of the TCP EventBus bridge: read from bytes that come in any pieces, and written. (Vert.x TCP EventBus bridge
//! manual, "Message format".)
#![tactic(auto)]

mod cut;
mod reader;

pub use reader::{FrameReader, Next};
pub use vx_frame_read::read_frame;
pub use vx_frame_write::write_frame;
