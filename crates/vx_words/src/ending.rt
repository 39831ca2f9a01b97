//! How a line ends behind its last piece.
ghost use Rattle.std.specs.Prelude.{◌≡◌};
ghost use Rattle.vx_words.specs.Grammar as grammar;
ghost use Rattle.vx_words.specs.Reading.{Gives, end_at, rest_at, body_in, body_at, words_at, codec_form_at, lane_at, task_end_at, result_at};

use crate::fault::{LineFault, MISFIT};
use crate::piece;
use crate::token::text;
use crate::word::{skip_spaces, word};
use std::alloc::Global;
use vx_call::End;
use vx_data::{Body, EntryNo, List, PoolId, Text};
use vx_json::{JsonFault, read_body};
use vx_message::{CodecForm, DoneResult, Lane};

fn is_blank(text: &[u8]) -> bool
    ensures { result ≡ grammar.is_blank text.now }
{
    text.iter().all(|b| *b == b' ')
}

/// Nothing but spaces is left.
#[tactic(auto, unfolding(crate::specs::Reading::end_at))]
pub fn end(tail: &[u8]) -> Result<(), LineFault>
    ensures { Gives (λ _. tt) result (end_at tail.now) }
{
    if is_blank(tail) { Ok(()) } else { Err(MISFIT) }
}

/// The rest of the line, behind all spaces.
#[tactic(auto, unfolding(crate::specs::Reading::rest_at))]
pub fn rest(alloc: Global, tail: &[u8]) -> Result<Text, LineFault>
    ensures { Gives (λ rest. rest) result (rest_at tail.now) }
{
    if tail.is_empty() {
        return Ok(Text::constant(""));
    }
    let bytes = skip_spaces(tail).ok_or(MISFIT)?;
    text(alloc, bytes)
}

/// The body of a JSON text.
fn json(alloc: Global, text: &[u8]) -> Result<Body, LineFault>
    ensures { Gives (λ body. body) result (body_in text.now) }
{
    match read_body(alloc, text) {
        Ok(body) => Ok(body),
        Err(JsonFault::BadJson) => Err(MISFIT),
        Err(JsonFault::Deep) => Err(MISFIT),
        Err(JsonFault::NoMemory) => Err(LineFault::NoMemory),
    }
}

/// The rest of the line as a body, behind one space or more.
#[tactic(auto, unfolding(crate::specs::Reading::body_at))]
pub fn body(alloc: Global, tail: &[u8]) -> Result<Body, LineFault>
    ensures { Gives (λ body. body) result (body_at tail.now) }
{
    match tail {
        [b' ', text @ ..] => json(alloc, text),
        _ => Err(MISFIT),
    }
}

/// All words that are left.
fn texts(alloc: Global, tail: &[u8]) -> Result<List<Text>, LineFault>
    ensures { Gives (λ texts. texts) result (words_at tail.now) }
{
    let mut texts = Vec::new(alloc);
    let mut rest = tail;
    while let Some((word, behind)) = word(rest) {
        texts.push(text(alloc, word)?)?;
        rest = behind;
    }
    end(rest)?;
    Ok(List::new(texts))
}

/// The form of a codec.
#[tactic(auto, unfolding(crate::specs::Reading::codec_form_at))]
pub fn codec_form(alloc: Global, tail: &[u8]) -> Result<CodecForm, LineFault>
    ensures { Gives (λ form. form) result (codec_form_at tail.now) }
{
    let (word, tail) = word(tail).ok_or(MISFIT)?;
    if word == b"copy".as_slice() {
        end(tail)?;
        Ok(CodecForm::Copy)
    } else if word == b"keep".as_slice() {
        Ok(CodecForm::KeepKeys(texts(alloc, tail)?))
    } else if word == b"drop".as_slice() {
        Ok(CodecForm::DropKeys(texts(alloc, tail)?))
    } else if word == b"wrap".as_slice() {
        let (key, tail) = piece::text(alloc, tail)?;
        end(tail)?;
        Ok(CodecForm::Wrap(key))
    } else {
        Err(MISFIT)
    }
}

/// The lane that a task is taken from: `loop N`, `pool`, `named E` or `own C`.
#[tactic(auto, unfolding(crate::specs::Reading::lane_at))]
pub fn lane(tail: &[u8]) -> Result<Lane, LineFault>
    ensures { Gives (λ lane. lane) result (lane_at tail.now) }
{
    let (word, tail) = word(tail).ok_or(MISFIT)?;
    if word == b"loop".as_slice() {
        let (number, tail) = piece::byte_number(tail)?;
        end(tail)?;
        Ok(Lane::Loop(number))
    } else if word == b"pool".as_slice() {
        end(tail)?;
        Ok(Lane::Pool)
    } else if word == b"named".as_slice() {
        let (entry, tail) = piece::number(tail)?;
        end(tail)?;
        Ok(Lane::Named(PoolId(EntryNo(entry))))
    } else if word == b"own".as_slice() {
        let (context, tail) = piece::context(tail)?;
        end(tail)?;
        Ok(Lane::Own(context))
    } else {
        Err(MISFIT)
    }
}

/// How a task ends: nothing, `later`, `value V`, `fail V` or `nomemory`.
#[tactic(auto, unfolding(crate::specs::Reading::task_end_at))]
pub fn task_end(tail: &[u8]) -> Result<End, LineFault>
    ensures { Gives (λ end. end) result (task_end_at tail.now) }
{
    let Some((word, behind)) = word(tail) else {
        end(tail)?;
        return Ok(End::Done);
    };
    if word == b"later".as_slice() {
        end(behind)?;
        Ok(End::Later)
    } else if word == b"value".as_slice() {
        let (value, behind) = piece::value(behind)?;
        end(behind)?;
        Ok(End::Value(value))
    } else if word == b"fail".as_slice() {
        let (code, behind) = piece::code(behind)?;
        end(behind)?;
        Ok(End::Fail(code))
    } else if word == b"nomemory".as_slice() {
        end(behind)?;
        Ok(End::NoMemory)
    } else {
        Err(MISFIT)
    }
}

/// How a start ends: nothing, `fail V` or `nomemory`.
#[tactic(auto, unfolding(crate::specs::Reading::result_at))]
pub fn start_result(tail: &[u8]) -> Result<DoneResult, LineFault>
    ensures { Gives (λ ended. ended) result (result_at tail.now) }
{
    let Some((word, behind)) = word(tail) else {
        end(tail)?;
        return Ok(DoneResult::Ok);
    };
    if word == b"fail".as_slice() {
        let (code, behind) = piece::code(behind)?;
        end(behind)?;
        Ok(DoneResult::Fail(code))
    } else if word == b"nomemory".as_slice() {
        end(behind)?;
        Ok(DoneResult::NoMemory)
    } else {
        Err(MISFIT)
    }
}
