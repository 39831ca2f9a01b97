//! The headers of a frame that comes in.
ghost use Rattle.std.specs.Prelude.{◌≡◌, ◌∷◌, ◌++◌, [], Option, false, IfOk, option_map};
ghost use Rattle.vx_data.specs.Tree.{Tree, Members, Elements, array, object, no_members};
ghost use Rattle.vx_data.specs.Bodies.{elements};
ghost use Rattle.vx_json.specs.Grammar.{IsJson, settled, settled_members};
ghost use Rattle.vx_json_parts.specs.Parts.{IsPart};
ghost use Rattle.vx_frame_read.specs.Fields.{MayBePart, within, Adds, text_pairs, value_pairs, all_pairs};
ghost use Rattle.vx_frame_read.specs.Frames.{headers_field};
ghost use Rattle.vx_frame_read.specs.HeaderPairs.{header_pairs, are_large};
ghost use Rattle.vx_frame_read.specs.HeaderPairs as pairs;

use crate::values::values_of;
use std::alloc::Global;
use vx_data::{Body, BodyView, HeaderFault, Headers, NoMemory, Text};
use vx_json_parts::{Form, Part, read_fields};

/// How many pairs the headers of a frame may have.
const MAX_PAIRS: usize = 1024;

/// How many bytes their names and values may have, together.
const MAX_BYTES: usize = 65_536;

/// The headers of the field, none where it is no object. None where they are too many.
pub(crate) fn headers_of(
    alloc: Global,
    part: Option<&Part<'_>>,
) -> Result<Option<Headers>, NoMemory>
    ensures { (t : Option Tree) → MayBePart t (option_map (λ part. part.now) part.entry) → IfOk result (λ found. found ≡ within (headers_field t)) }
{
    match part {
        Some(part) => headers_in(alloc, part),
        None => Ok(Some(Headers::empty(alloc))),
    }
}

/// The headers of a value.
fn headers_in(alloc: Global, part: &Part<'_>) -> Result<Option<Headers>, NoMemory>
    ensures { (t : Tree) → IsPart t part.now → IfOk result (λ found. found ≡ within (header_pairs (settled t))) }
{
    match part.form() {
        Form::Object => {
            let values = named_values(alloc, part.text)?;
            pairs_of(alloc, &values)
        }
        _ => Ok(Some(Headers::empty(alloc))),
    }
}

/// The texts of each name, in byte order of names.
fn named_values(alloc: Global, text: &[u8]) -> Result<Body, NoMemory>
    ensures { (ms : Members) → IsJson (object ms) text.now → IfOk result (λ body. all_pairs body ≡ pairs.pairs_of (settled_members ms no_members)) }
{
    let Ok(fields) = read_fields(alloc, text) else {
        return Err(NoMemory);
    };
    let mut pairs = Vec::with_capacity(alloc, fields.len())?;
    for (name, part) in &fields {
        pairs.push((name.copy(alloc)?, values_of(alloc, part)?))?;
    }
    match Body::object(alloc, pairs) {
        Ok(body) => Ok(body),
        Err(_) => Err(NoMemory),
    }
}

/// A pair for each text of each name, where they are not too many.
fn pairs_of(alloc: Global, values: &Body) -> Result<Option<Headers>, NoMemory>
    ensures { IfOk result (λ found. found ≡ within (all_pairs values.now)) }
{
    let mut headers = Headers::empty(alloc);
    if let BodyView::Object(named) = values.view() {
        for (name, texts) in named {
            if !add_all(alloc, name, texts, &mut headers)? {
                return Ok(None);
            }
        }
    }
    Ok(Some(headers))
}

/// Adds a pair for each of the texts. Whether they are not too many.
fn add_all(
    alloc: Global,
    name: &Text,
    texts: &Body,
    headers: &mut Headers,
) -> Result<bool, NoMemory>
    requires { are_large headers.old ≡ false }
    ensures { IfOk result (λ fits. Adds headers.old (value_pairs name.now texts.now) fits headers.new) }
{
    if let BodyView::Array(texts) = texts.view() {
        for text in texts {
            if !add(alloc, name, text, headers)? {
                return Ok(false);
            }
        }
    }
    Ok(true)
}

/// Adds a pair, where the value is a text. Whether there are not too many then.
fn add(alloc: Global, name: &Text, value: &Body, headers: &mut Headers) -> Result<bool, NoMemory>
    requires { are_large headers.old ≡ false }
    ensures { IfOk result (λ fits. Adds headers.old (text_pairs name.now value.now) fits headers.new) }
{
    let BodyView::Text(value) = value.view() else {
        return Ok(true);
    };
    if is_large_with(headers, name, value) {
        return Ok(false);
    }
    match headers.add(name.copy(alloc)?, value.copy(alloc)?) {
        Ok(()) => Ok(true),
        Err(refused) => match refused.why {
            HeaderFault::TooMany => Ok(false),
            HeaderFault::NoMemory => Err(NoMemory),
        },
    }
}

/// Whether one more pair is too many.
fn is_large_with(headers: &Headers, name: &Text, value: &Text) -> bool
    ensures { result ≡ are_large (headers.now ++ (name.now, value.now) ∷ []) }
{
    let bytes = headers
        .bytes()
        .saturating_add(name.len())
        .saturating_add(value.len());
    headers.pairs().len() >= MAX_PAIRS || bytes > MAX_BYTES
}
