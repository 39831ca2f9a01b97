//! Tests of the host, with threads: each public call once.
#![tactic(auto)]

#[cfg(test)]
mod tests;
