//! The parts of arrays and objects in a JSON text, each with the bytes in which it stands, and the compact text of a part.
#![tactic(auto)]

mod compact;
mod part;

pub use compact::compact_text;
pub use part::{Form, Part, read_fields, read_items};
