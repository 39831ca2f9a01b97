//! The parts of an array or an object, each with the bytes in which it stands.
ghost use Rattle.std.specs.Prelude.{◌≡◌, ◌≤◌, length, IfOk, MatchResult};
ghost use Rattle.vx_data.specs.Tree.{Elements, Members, array, object};
ghost use Rattle.vx_json.specs.Gives.{Gives};
ghost use Rattle.vx_json.specs.Grammar.{IsJson};
ghost use Rattle.vx_json_parts.specs.Forms.{begins_with, form_of};
ghost use Rattle.vx_json_parts.specs.Parts.{AreItems, AreFields};
ghost use Rattle.vx_json_parts.specs.Seen.{part_seen, field_seen, parts_seen, fields_seen};
ghost use Rattle.vx_json.specs.Reading as reading;
ghost use Rattle.vx_json_parts.specs.Reading as parts;
ghost use Rattle.vx_json.specs.declared.fault.JsonFault.TheVariants.{NoMemory};

use std::alloc::Global;
use vx_data::{Body, BodyView, Text};
use vx_json::{JsonFault, MAX_DEPTH, MAX_NESTING, Next, after, next_of, quoted_at, skip, value_at};

/// A value of a text, with the bytes in which it stands.
#[derive(Drop)]
pub struct Part<'a> {
    /// The body of the value. Where that would be deeper than 100, some body of depth 101 stands here.
    pub body: Body,
    /// The bytes of the value, without white space round them.
    pub text: &'a [u8],
}

/// What form a value has.
#[derive(Clone, Copy)]
pub enum Form {
    /// Null, a truth value, a number or a text.
    Scalar,
    Array,
    Object,
}

impl Part<'_> {
    ghost use Rattle.std.specs.Prelude.{◌≡◌};
    ghost use Rattle.vx_data.specs.Tree.{Tree};
    ghost use Rattle.vx_json_parts.specs.Forms.{form_of};
    ghost use Rattle.vx_json_parts.specs.Parts.{IsPart};

    /// What form the value has, however deep it is.
    pub fn form(&self) -> Form
        ensures { (t : Tree) → IsPart t self.now → result ≡ form_of t }
    {
        if self.body.depth() <= MAX_DEPTH {
            return form_of(&self.body);
        }
        if begins(self.text, b'[') {
            Form::Array
        } else {
            Form::Object
        }
    }
}

fn form_of(body: &Body) -> Form
    ensures { result ≡ form_of body.now }
{
    match body.view() {
        BodyView::Array(_) => Form::Array,
        BodyView::Object(_) => Form::Object,
        _ => Form::Scalar,
    }
}

/// Whether the byte stands at the front.
pub(crate) fn begins(text: &[u8], byte: u8) -> bool
    ensures { result ≡ begins_with byte text.now }
{
    match text {
        [first, ..] => *first == byte,
        [] => false,
    }
}

/// The members of an object's text, in the order of the text, keys that come again included. `BadJson` comes exactly
/// where the bytes are no object of the profile with nesting of at most 127.
pub fn read_fields(alloc: Global, text: &[u8]) -> Result<Vec<(Text, Part<'_>)>, JsonFault>
    // What is read stands there.
    ensures found { IfOk result (λ fields. (ms : Members) × IsJson (object ms) text.now × AreFields ms fields.items) }
    // What stands there is read, unless memory runs out.
    ensures only { (ms : Members) → IsJson (object ms) text.now
        → MatchResult result (λ fields. AreFields ms fields.items) (λ fault. fault ≡ NoMemory) }
{
    fields_of(alloc, text, MAX_NESTING)
}

/// The items of an array's text, in order. `BadJson` comes exactly where the bytes are no array of the profile with
/// nesting of at most 127.
pub fn read_items(alloc: Global, text: &[u8]) -> Result<Vec<Part<'_>>, JsonFault>
    ensures found { IfOk result (λ items. (es : Elements) × IsJson (array es) text.now × AreItems es items.items) }
    ensures only { (es : Elements) → IsJson (array es) text.now
        → MatchResult result (λ items. AreItems es items.items) (λ fault. fault ≡ NoMemory) }
{
    items_of(alloc, text, MAX_NESTING)
}

/// The members of a text that is an object, and nests no deeper than `room`.
pub(crate) fn fields_of(
    alloc: Global,
    text: &[u8],
    room: u32,
) -> Result<Vec<(Text, Part<'_>)>, JsonFault>
    ensures { Gives (λ found. fields_seen found.items) result (parts.fields_of room text.now) }
{
    let Some(inside) = after(skip(text), b"{") else {
        return Err(JsonFault::BadJson);
    };
    if room == 0 {
        return Err(JsonFault::BadJson);
    }
    let (fields, rest) = fields_at(alloc, skip(inside), room - 1)?;
    if !skip(rest).is_empty() {
        return Err(JsonFault::BadJson);
    }
    Ok(fields)
}

/// The items of a text that is an array, and nests no deeper than `room`.
pub(crate) fn items_of(alloc: Global, text: &[u8], room: u32) -> Result<Vec<Part<'_>>, JsonFault>
    ensures { Gives (λ found. parts_seen found.items) result (parts.items_of room text.now) }
{
    let Some(inside) = after(skip(text), b"[") else {
        return Err(JsonFault::BadJson);
    };
    if room == 0 {
        return Err(JsonFault::BadJson);
    }
    let (items, rest) = parts_at(alloc, skip(inside), room - 1)?;
    if !skip(rest).is_empty() {
        return Err(JsonFault::BadJson);
    }
    Ok(items)
}

/// The members of an object behind its brace and white space, and the bytes behind its closing brace.
fn fields_at(
    alloc: Global,
    bytes: &[u8],
    room: u32,
) -> Result<(Vec<(Text, Part<'_>)>, &[u8]), JsonFault>
    ensures { Gives (λ found. (fields_seen found.0.items, found.1.now)) result (reading.list_begun 125 (parts.field_at (reading.value_at room)) bytes.now) }
{
    let mut fields = Vec::new(alloc);
    if let Some(rest) = after(bytes, b"}") {
        return Ok((fields, rest));
    }
    let mut rest = bytes;
    for _ in 0..bytes.len() {
        let (field, behind) = field_at(alloc, rest, room)?;
        fields.push(field)?;
        match next_of(behind, b'}') {
            Some(Next::More(more)) => rest = more,
            Some(Next::Closed(last)) => return Ok((fields, last)),
            None => return Err(JsonFault::BadJson),
        }
    }
    Err(JsonFault::BadJson)
}

/// The items of an array behind its bracket and white space, and the bytes behind its closing bracket.
fn parts_at(alloc: Global, bytes: &[u8], room: u32) -> Result<(Vec<Part<'_>>, &[u8]), JsonFault>
    ensures { Gives (λ found. (parts_seen found.0.items, found.1.now)) result (reading.list_begun 93 (parts.part_at (reading.value_at room)) bytes.now) }
{
    let mut parts = Vec::new(alloc);
    if let Some(rest) = after(bytes, b"]") {
        return Ok((parts, rest));
    }
    let mut rest = bytes;
    for _ in 0..bytes.len() {
        let (part, behind) = part_at(alloc, rest, room)?;
        parts.push(part)?;
        match next_of(behind, b']') {
            Some(Next::More(more)) => rest = more,
            Some(Next::Closed(last)) => return Ok((parts, last)),
            None => return Err(JsonFault::BadJson),
        }
    }
    Err(JsonFault::BadJson)
}

/// A key with its value, and the bytes behind it.
#[tactic(auto, unfolding(crate::specs::Reading::field_at))]
fn field_at(alloc: Global, bytes: &[u8], room: u32) -> Result<((Text, Part<'_>), &[u8]), JsonFault>
    ensures { Gives (λ found. (field_seen found.0, found.1.now)) result (parts.field_at (reading.value_at room) bytes.now) }
{
    let (key, rest) = quoted_at(alloc, skip(bytes))?;
    let rest = after(skip(rest), b":").ok_or(JsonFault::BadJson)?;
    let (part, rest) = part_at(alloc, rest, room)?;
    Ok(((key, part), rest))
}

/// A value behind white space, and the bytes behind it.
#[tactic(auto, unfolding(crate::specs::Reading::part_at))]
fn part_at(alloc: Global, bytes: &[u8], room: u32) -> Result<(Part<'_>, &[u8]), JsonFault>
    ensures { Gives (λ found. (part_seen found.0, found.1.now)) result (parts.part_at (reading.value_at room) bytes.now) }
{
    let start = skip(bytes);
    let (body, rest) = value_at(alloc, start, room)?;
    let text = &start[..start.len() - rest.len()];
    Ok((Part { body, text }, rest))
}
