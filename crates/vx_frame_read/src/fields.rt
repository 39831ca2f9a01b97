//! The fields of a frame, by name. Of a name that comes again the last field counts.
ghost use Rattle.std.specs.Prelude.{◌≡◌, ◌<◌, IfOk, IfSome, length, option_map};
ghost use Rattle.vx_data.specs.Tree.{Members};
ghost use Rattle.vx_json_parts.specs.Parts.{AreFields};
ghost use Rattle.vx_frame_read.specs.Fields.{last_part, part_at, body_of, text_of_part};
ghost use Rattle.vx_frame_read.specs.Frames.{text_field};

use std::alloc::Global;
use vx_data::{Body, BodyView, NoMemory, Text};
use vx_json_parts::Part;

/// The text that a field is, if it is one.
pub(crate) fn text_field<'a>(fields: &'a [(Text, Part<'_>)], name: &str) -> Option<&'a Text>
    ensures { (ms : Members) → AreFields ms fields.now → option_map (λ text. text.now) result ≡ text_field name.now ms }
{
    match last(fields, name) {
        Some(part) => text_of(part),
        None => None,
    }
}

/// The value of the last field with this name.
pub(crate) fn last<'a, 'b>(fields: &'a [(Text, Part<'b>)], name: &str) -> Option<&'a Part<'b>>
    ensures { option_map (λ part. part.now) result ≡ last_part name.now fields.entry.now }
{
    match last_place(fields, name) {
        Some(place) => Some(&fields[place].1),
        None => None,
    }
}

/// Where the last field with this name stands.
fn last_place(fields: &[(Text, Part<'_>)], name: &str) -> Option<usize>
    ensures within { IfSome result (λ place. place < length fields.entry.now) }
    ensures part { last_part name.now fields.entry.now ≡ part_at fields.entry.now result }
{
    let mut place = fields.len();
    while place > 0 {
        place -= 1;
        if fields[place].0.as_str() == name {
            return Some(place);
        }
    }
    None
}

/// The body of the last field with this name, or null where there is none.
pub(crate) fn last_body(mut fields: Vec<(Text, Part<'_>)>, name: &str) -> Body
    ensures { result ≡ body_of (last_part name.now fields.entry.items) }
{
    match last_place(&fields, name) {
        Some(place) => fields.swap_remove(place).1.body,
        None => Body::null(),
    }
}

/// The text that a value is, if it is one.
fn text_of<'a>(part: &'a Part<'_>) -> Option<&'a Text>
    ensures { option_map (λ text. text.now) result ≡ text_of_part part.now }
{
    match part.body.view() {
        BodyView::Text(text) => Some(text),
        _ => None,
    }
}

/// A copy of the text, if there is one.
pub(crate) fn copied(alloc: Global, text: Option<&Text>) -> Result<Option<Text>, NoMemory>
    ensures { IfOk result (λ copy. copy ≡ option_map (λ text. text.now) text.entry) }
{
    match text {
        Some(text) => Ok(Some(text.copy(alloc)?)),
        None => Ok(None),
    }
}
