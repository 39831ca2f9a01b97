//! The tests of bodies, of their JSON texts and of the parts of such texts: values from outside, and what `serde_json`
//! says of the same texts.
#![tactic(auto)]

#[cfg(test)]
mod bodies;
#[cfg(test)]
mod parts;
#[cfg(test)]
mod texts;
