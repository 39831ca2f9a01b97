//! What a frame that comes in over the TCP EventBus bridge says, from its JSON. (Vert.x TCP EventBus bridge manual,
//! "Message format".)
#![tactic(auto)]

mod fields;
mod headers;
mod read;
mod values;

pub use read::read_frame;
