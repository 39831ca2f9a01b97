//! Tests of items in lists: each call that takes memory is run once with its answer, and each way through a list once.
#![tactic(auto)]

#[cfg(test)]
mod queues;
#[cfg(test)]
mod tests;
