//! The tests of the deployment file: files that are read, refused and written.
#![tactic(auto)]

#[cfg(test)]
mod files;
#[cfg(test)]
mod limits;
#[cfg(test)]
mod line;
#[cfg(test)]
mod written;
