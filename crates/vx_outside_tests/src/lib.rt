//! Tests of files, clocks, threads and connections: each of the system's own once, and how those in
//! memory fail.
#![tactic(auto)]

#[cfg(test)]
mod clocks;
#[cfg(test)]
mod connections;
#[cfg(test)]
mod loads;
#[cfg(test)]
mod threads;
