//! Tests of reading and writing: each kind of source and sink once, and a read and a write that fail on the way.
#![tactic(auto)]

#[cfg(test)]
mod tests;
