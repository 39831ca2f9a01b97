//! The options of a line: words behind its command that begin with a plus sign.
ghost use Rattle.std.specs.Prelude.{◌≡◌, ◌<◌, ◌≤◌, [], ◌∷◌, length, map, option_map, IfSome};
ghost use Rattle.vx_line.specs.Grammar as grammar;
ghost use Rattle.vx_words.specs.Grammar.{begins_with};
ghost use Rattle.vx_line.specs.Grammar.{One, texts_of, headers_option, codec_option, timeout_option, limit_option, tell_option};
ghost use Rattle.vx_line.specs.Reading as reading;
ghost use Rattle.vx_words.specs.Reading.{Gives};
ghost use Rattle.vx_line.specs.Reading.{option_at, options_of, one_of, choice_in, options_at};
ghost use Rattle.vx_line.specs.Tables as tables;
ghost use Rattle.vx_words.specs.Grammar.{AContext, AText, AWord};

use std::alloc::Global;
use vx_call::Options;
use vx_data::{ContextId, HeaderFault, Headers, Text};
use vx_words::number::{number, small_number};
use vx_words::word::{is_among, skip_spaces, split_word};
use vx_words::{LineFault, MISFIT, token};

fn is_option(bytes: &[u8]) -> bool
    ensures { result ≡ begins_with 43 bytes.now }
{
    matches!(bytes, [b'+', ..])
}

/// The option at the front of a tail, and the tail behind it.
#[tactic(auto, unfolding(crate::specs::Reading::option_at))]
pub fn next_option(tail: &[u8]) -> Option<(&[u8], &[u8])>
    ensures option { option_map (λ x. (x.0.now, x.1.now)) result ≡ option_at tail.now }
    ensures shorter { IfSome result (λ x. length x.1.now < length tail.now) }
{
    let bytes = skip_spaces(tail)?;
    if is_option(bytes) {
        Some(split_word(bytes))
    } else {
        None
    }
}

/// How long the name of an option is: to its first colon, or to its end.
fn name_len(word: &[u8]) -> usize
    ensures value { result ≡ grammar.name_len word.now }
    ensures within { result ≤ length word.now }
{
    for (i, b) in word.iter().enumerate() {
        if *b == b':' {
            return i + 1;
        }
    }
    word.len()
}

/// The name of an option, and what follows it in the word.
pub fn split_name(word: &[u8]) -> (&[u8], &[u8])
    ensures name { result.0.now ≡ grammar.option_name word.now }
    ensures text { result.1.now ≡ grammar.option_text word.now }
{
    word.split_at(name_len(word))
}

/// Whether an option at the front of a tail has this name.
pub fn has_option(name: &[u8], tail: &[u8]) -> bool
    ensures { result ≡ tables.has_option name.now tail.now }
{
    let mut rest = tail;
    while let Some((option, behind)) = next_option(rest) {
        let (other, _) = split_name(option);
        if name == other {
            return true;
        }
        rest = behind;
    }
    false
}

/// Whether a word has one of these names.
fn is_known(word: &[u8], names: &[&str]) -> bool
    ensures { result ≡ reading.is_known (map (λ name. name.now) names.now) word.now }
{
    let (name, _) = split_name(word);
    is_among(name, names)
}

/// The tail behind the options, where all of them have these names.
pub fn behind_options<'a>(names: &[&str], tail: &'a [u8]) -> Result<&'a [u8], LineFault>
    ensures { Gives (λ x. x.now) result (reading.behind_options (map (λ name. name.now) names.now) tail.now) }
{
    let mut rest = tail;
    while let Some((option, behind)) = next_option(rest) {
        if !is_known(option, names) {
            return Err(MISFIT);
        }
        rest = behind;
    }
    Ok(rest)
}

/// The tail behind the options at its front.
pub fn skip_options(tail: &[u8]) -> &[u8]
    ensures { result.now ≡ (options_of tail.now).rest }
{
    let mut rest = tail;
    while let Some((_, behind)) = next_option(rest) {
        rest = behind;
    }
    rest
}

/// What follows this name in the one option that has it, if there is one.
pub fn one<'a>(name: &[u8], tail: &'a [u8]) -> Result<Option<&'a [u8]>, LineFault>
    ensures { Gives (option_map (λ x. x.now)) result (one_of (texts_of name.now (options_of tail.now).words)) }
{
    let mut found = None;
    let mut rest = tail;
    while let Some((option, behind)) = next_option(rest) {
        let (other, text) = split_name(option);
        if other == name {
            if found.is_some() {
                return Err(MISFIT);
            }
            found = Some(text);
        }
        rest = behind;
    }
    Ok(found)
}

/// The timeout in ms that an option chooses.
fn timeout(tail: &[u8]) -> Result<Option<u64>, LineFault>
    ensures { Gives (λ timeout. timeout) result (choice_in timeout_option (options_of tail.now).words) }
{
    match one(b"+timeout:", tail)? {
        Some(text) => Ok(Some(number(text).ok_or(MISFIT)?)),
        None => Ok(None),
    }
}

/// The context that an option of this name chooses.
pub fn context_option(name: &[u8], tail: &[u8]) -> Result<Option<ContextId>, LineFault>
    ensures { Gives (λ context. context) result (choice_in (One name.now AContext) (options_of tail.now).words) }
{
    match one(name, tail)? {
        Some(text) => Ok(Some(token::context(text).ok_or(MISFIT)?)),
        None => Ok(None),
    }
}

/// The text that an option of this name chooses.
pub fn text_option(alloc: Global, name: &[u8], tail: &[u8]) -> Result<Option<Text>, LineFault>
    ensures { Gives (λ text. text) result (choice_in (One name.now AText) (options_of tail.now).words) }
{
    match one(name, tail)? {
        Some(text) => Ok(Some(token::text(alloc, text)?)),
        None => Ok(None),
    }
}

/// Adds a header, by its text.
fn add_header(alloc: Global, text: &[u8], headers: &mut Headers) -> Result<(), LineFault>
    ensures { Gives (λ _. headers.new) result (reading.header_onto headers.old text.now) }
{
    let (name, value) = token::header(alloc, text)?;
    match headers.add(name, value) {
        Ok(()) => Ok(()),
        Err(refused) => match refused.why {
            HeaderFault::TooMany => Err(MISFIT),
            HeaderFault::NoMemory => Err(LineFault::NoMemory),
        },
    }
}

/// The headers that options give, in their order.
fn headers(alloc: Global, tail: &[u8]) -> Result<Headers, LineFault>
    ensures { Gives (λ headers. headers) result (choice_in headers_option (options_of tail.now).words) }
{
    let mut headers = Headers::empty(alloc);
    let mut rest = tail;
    while let Some((option, behind)) = next_option(rest) {
        let (name, text) = split_name(option);
        if name == b"+h:".as_slice() {
            add_header(alloc, text, &mut headers)?;
        }
        rest = behind;
    }
    Ok(headers)
}

/// The limit of a consumer that an option chooses, and the tail behind it.
pub fn limit(tail: &[u8]) -> Result<(Option<u32>, &[u8]), LineFault>
    ensures { Gives (λ x. ((x.0, tt), x.1.now)) result (options_at (limit_option ∷ []) tail.now) }
{
    let rest = behind_options(&["+limit:"], tail)?;
    let limit = match one(b"+limit:", tail)? {
        Some(text) => Some(small_number(text).ok_or(MISFIT)?),
        None => None,
    };
    Ok((limit, rest))
}

/// The context that is told, if an option chooses one, and the tail behind it.
pub fn tell(tail: &[u8]) -> Result<(Option<ContextId>, &[u8]), LineFault>
    ensures { Gives (λ x. ((x.0, tt), x.1.now)) result (options_at (tell_option ∷ []) tail.now) }
{
    let rest = behind_options(&["+tell:"], tail)?;
    let tell = context_option(b"+tell:", tail)?;
    Ok((tell, rest))
}

/// The options of a message, and the tail behind them.
pub fn message_options(alloc: Global, tail: &[u8]) -> Result<(Options, &[u8]), LineFault>
    ensures { Gives (λ x. ((x.0.headers, (x.0.codec, tt)), x.1.now)) result (options_at (headers_option ∷ codec_option ∷ []) tail.now) }
{
    let rest = behind_options(&["+h:", "+codec:"], tail)?;
    let headers = headers(alloc, tail)?;
    let codec = text_option(alloc, b"+codec:", tail)?;
    Ok((Options { headers, codec }, rest))
}

/// The options of a message that waits for a reply, its timeout in ms if one is chosen, and the tail behind them.
pub fn request_options(
    alloc: Global,
    tail: &[u8],
) -> Result<(Options, Option<u64>, &[u8]), LineFault>
    ensures { Gives (λ x. ((x.0.headers, (x.0.codec, (x.1, tt))), x.2.now)) result (options_at (headers_option ∷ codec_option ∷ timeout_option ∷ []) tail.now) }
{
    let rest = behind_options(&["+h:", "+codec:", "+timeout:"], tail)?;
    let headers = headers(alloc, tail)?;
    let codec = text_option(alloc, b"+codec:", tail)?;
    let timeout = timeout(tail)?;
    Ok((Options { headers, codec }, timeout, rest))
}
