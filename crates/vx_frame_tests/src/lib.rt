//! The tests of frames: those that come in, of texts and of streams in pieces, and those that go out.
#![tactic(auto)]

#[cfg(test)]
mod line;
#[cfg(test)]
mod streams;
#[cfg(test)]
mod texts;
#[cfg(test)]
mod written;
