//! The tests of lines: those that are read, and not on yet.
#![tactic(auto)]

#[cfg(test)]
mod lines;
#[cfg(test)]
mod said;
