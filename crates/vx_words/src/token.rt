//! What one word says.
ghost use Rattle.std.specs.Prelude.{◌≡◌};
ghost use Rattle.vx_words.specs.Reading as reading;
ghost use Rattle.vx_words.specs.Reading.{Gives, text_in, context_in, header_in, side_in, condition_in, verdict_in};

use crate::fault::{LineFault, MISFIT};
use crate::number::{number, small_number};
use crate::word::{after, place_of};
use std::alloc::Global;
use vx_data::{ContextId, EntryNo, Text, TextFault};
use vx_message::{Condition, Side, Verdict};

/// The text of bytes that are UTF-8.
pub fn text(alloc: Global, bytes: &[u8]) -> Result<Text, LineFault>
    ensures { Gives (λ text. text) result (text_in bytes.now) }
{
    match Text::new(alloc, bytes) {
        Ok(text) => Ok(text),
        Err(TextFault::BadText) => Err(MISFIT),
        Err(TextFault::NoMemory) => Err(LineFault::NoMemory),
    }
}

/// The number of a context, from the point on.
fn instance(text: &[u8]) -> Option<u32>
    ensures { result ≡ reading.instance_in text.now }
{
    match text {
        [_, digits @ ..] => small_number(digits),
        [] => Some(0),
    }
}

/// A context, by the entry that made it and its number there.
#[tactic(auto, unfolding(crate::specs::Reading::context_in))]
pub fn context(text: &[u8]) -> Option<ContextId>
    ensures { result ≡ context_in text.now }
{
    let (front, back) = text.split_at(place_of(b'.', text));
    let entry = number(front)?;
    let instance = instance(back)?;
    Some(ContextId {
        entry: EntryNo(entry),
        instance,
    })
}

/// The value of a header, from the equals sign on.
fn value(alloc: Global, text: &[u8]) -> Result<Text, LineFault>
    ensures { Gives (λ value. value) result (reading.value_in text.now) }
{
    match text {
        [_, value @ ..] => self::text(alloc, value),
        [] => Err(MISFIT),
    }
}

/// A header: its name, which goes to the first equals sign, and its value.
#[tactic(auto, unfolding(crate::specs::Reading::header_in))]
pub fn header(alloc: Global, text: &[u8]) -> Result<(Text, Text), LineFault>
    ensures { Gives (λ header. header) result (header_in text.now) }
{
    let (front, back) = text.split_at(place_of(b'=', text));
    let name = self::text(alloc, front)?;
    let value = value(alloc, back)?;
    Ok((name, value))
}

/// Which way a rule is for.
#[tactic(auto, unfolding(crate::specs::Reading::side_in))]
pub fn side(text: &[u8]) -> Option<Side>
    ensures { result ≡ side_in text.now }
{
    if text == b"in".as_slice() {
        Some(Side::In)
    } else if text == b"out".as_slice() {
        Some(Side::Out)
    } else {
        None
    }
}

/// What messages a rule is for.
#[tactic(auto, unfolding(crate::specs::Reading::condition_in))]
pub fn condition(alloc: Global, text: &[u8]) -> Result<Condition, LineFault>
    ensures { Gives (λ condition. condition) result (condition_in text.now) }
{
    if text == b"any".as_slice() {
        return Ok(Condition::Any);
    }
    if let Some(address) = after(b"at:", text) {
        return Ok(Condition::At(self::text(alloc, address)?));
    }
    let name = after(b"has:", text).ok_or(MISFIT)?;
    Ok(Condition::Has(self::text(alloc, name)?))
}

/// What a rule does with a message.
#[tactic(auto, unfolding(crate::specs::Reading::verdict_in))]
pub fn verdict(alloc: Global, text: &[u8]) -> Result<Verdict, LineFault>
    ensures { Gives (λ verdict. verdict) result (verdict_in text.now) }
{
    if text == b"stop".as_slice() {
        return Ok(Verdict::Stop);
    }
    let added = after(b"add:", text).ok_or(MISFIT)?;
    let (name, value) = header(alloc, added)?;
    Ok(Verdict::Add(name, value))
}
