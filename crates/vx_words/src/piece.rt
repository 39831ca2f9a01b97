//! The pieces of a line, each a word behind the spaces before it, with the tail behind it.
ghost use Rattle.vx_words.specs.Grammar.{AWord, ANumber, AtMost, AContext, ASigned, AText, ASide, ACondition, AVerdict};
ghost use Rattle.vx_words.specs.Reading.{Gives, token_at};

use crate::fault::{LineFault, MISFIT};
use crate::word::word;
use crate::{number, token};
use std::alloc::Global;
use vx_data::{ContextId, Text};
use vx_message::{Condition, Side, Verdict};

/// Takes a certain word.
pub fn keyword<'a>(keyword: &[u8], tail: &'a [u8]) -> Result<&'a [u8], LineFault>
    ensures { Gives (λ x. (tt, x.now)) result (token_at (AWord keyword.now) tail.now) }
{
    let (text, rest) = word(tail).ok_or(MISFIT)?;
    if text == keyword {
        Ok(rest)
    } else {
        Err(MISFIT)
    }
}

/// A number of 64 bits.
pub fn number(tail: &[u8]) -> Result<(u64, &[u8]), LineFault>
    ensures { Gives (λ x. (x.0, x.1.now)) result (token_at (ANumber 64) tail.now) }
{
    let (text, rest) = word(tail).ok_or(MISFIT)?;
    let number = number::number(text).ok_or(MISFIT)?;
    Ok((number, rest))
}

/// A number of 32 bits.
pub fn small_number(tail: &[u8]) -> Result<(u32, &[u8]), LineFault>
    ensures { Gives (λ x. (x.0, x.1.now)) result (token_at (ANumber 32) tail.now) }
{
    let (text, rest) = word(tail).ok_or(MISFIT)?;
    let number = number::small_number(text).ok_or(MISFIT)?;
    Ok((number, rest))
}

/// A number of 8 bits.
pub fn byte_number(tail: &[u8]) -> Result<(u8, &[u8]), LineFault>
    ensures { Gives (λ x. (x.0, x.1.now)) result (token_at (ANumber 8) tail.now) }
{
    let (text, rest) = word(tail).ok_or(MISFIT)?;
    let number = number::byte_number(text).ok_or(MISFIT)?;
    Ok((number, rest))
}

/// A number of at most this.
pub fn at_most(limit: u32, tail: &[u8]) -> Result<(u32, &[u8]), LineFault>
    ensures { Gives (λ x. (x.0, x.1.now)) result (token_at (AtMost limit) tail.now) }
{
    let (text, rest) = word(tail).ok_or(MISFIT)?;
    let number = number::at_most(limit, text).ok_or(MISFIT)?;
    Ok((number, rest))
}

/// A number of 64 bits with a sign.
pub fn value(tail: &[u8]) -> Result<(i64, &[u8]), LineFault>
    ensures { Gives (λ x. (x.0, x.1.now)) result (token_at (ASigned 63) tail.now) }
{
    let (text, rest) = word(tail).ok_or(MISFIT)?;
    let value = number::value(text).ok_or(MISFIT)?;
    Ok((value, rest))
}

/// The code of a failure: a number of 32 bits with a sign.
pub fn code(tail: &[u8]) -> Result<(i32, &[u8]), LineFault>
    ensures { Gives (λ x. (x.0, x.1.now)) result (token_at (ASigned 31) tail.now) }
{
    let (text, rest) = word(tail).ok_or(MISFIT)?;
    let code = number::code(text).ok_or(MISFIT)?;
    Ok((code, rest))
}

/// A context.
pub fn context(tail: &[u8]) -> Result<(ContextId, &[u8]), LineFault>
    ensures { Gives (λ x. (x.0, x.1.now)) result (token_at AContext tail.now) }
{
    let (text, rest) = word(tail).ok_or(MISFIT)?;
    let context = token::context(text).ok_or(MISFIT)?;
    Ok((context, rest))
}

/// A text: any word.
pub fn text(alloc: Global, tail: &[u8]) -> Result<(Text, &[u8]), LineFault>
    ensures { Gives (λ x. (x.0, x.1.now)) result (token_at AText tail.now) }
{
    let (text, rest) = word(tail).ok_or(MISFIT)?;
    Ok((token::text(alloc, text)?, rest))
}

/// Which way a rule is for.
pub fn side(tail: &[u8]) -> Result<(Side, &[u8]), LineFault>
    ensures { Gives (λ x. (x.0, x.1.now)) result (token_at ASide tail.now) }
{
    let (text, rest) = word(tail).ok_or(MISFIT)?;
    let side = token::side(text).ok_or(MISFIT)?;
    Ok((side, rest))
}

/// What messages a rule is for.
pub fn condition(alloc: Global, tail: &[u8]) -> Result<(Condition, &[u8]), LineFault>
    ensures { Gives (λ x. (x.0, x.1.now)) result (token_at ACondition tail.now) }
{
    let (text, rest) = word(tail).ok_or(MISFIT)?;
    Ok((token::condition(alloc, text)?, rest))
}

/// What a rule does with a message.
pub fn verdict(alloc: Global, tail: &[u8]) -> Result<(Verdict, &[u8]), LineFault>
    ensures { Gives (λ x. (x.0, x.1.now)) result (token_at AVerdict tail.now) }
{
    let (text, rest) = word(tail).ok_or(MISFIT)?;
    Ok((token::verdict(alloc, text)?, rest))
}
