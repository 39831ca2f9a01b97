//! What the calls do, where the history is not spent: plain ones here, and a file for each that is not of a core.

pub mod advance;
pub mod new_context;
pub mod new_pass;
pub mod plain;
pub mod shut;
