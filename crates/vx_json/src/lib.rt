//! Bodies and their JSON texts.
#![tactic(auto)]

mod fault;
mod kept;
mod number;
mod piece;
mod read;
mod text;
mod token;
mod value;
mod write;

pub use fault::JsonFault;
pub use kept::MAX_DEPTH;
pub use read::{MAX_NESTING, read_body};
pub use text::quoted_at;
pub use token::{Next, after, next_of, skip};
pub use value::value_at;
pub use write::{write_body, write_members, write_text};
