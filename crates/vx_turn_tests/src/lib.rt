//! Tests of the turn by threads, over a machine of one number.
#![tactic(auto)]

#[cfg(test)]
mod tests;
