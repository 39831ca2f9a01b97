//! Tests of verticles and of the host's kinds: each call that takes memory is run once with its answer, each limit met
//! once.
#![tactic(auto)]

#[cfg(test)]
mod acts;
#[cfg(test)]
mod kinds;
