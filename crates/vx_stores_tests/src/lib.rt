//! Tests of the stores: consumers at addresses, servers at places, frames that go out, deployments, requests, timers, flows, codecs and
//! rules, contexts. Each call that takes memory is run once with its answer.
#![tactic(auto)]

#[cfg(test)]
mod contexts;
#[cfg(test)]
mod flows;
#[cfg(test)]
mod forms;
#[cfg(test)]
mod lives;
#[cfg(test)]
mod outs;
#[cfg(test)]
mod requests;
#[cfg(test)]
mod rings;
#[cfg(test)]
mod rules;
#[cfg(test)]
mod servers;
#[cfg(test)]
mod timers;
#[cfg(test)]
mod trees;
