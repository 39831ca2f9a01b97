//! The compact texts of values that stand in a text. A value may be deeper than a body, so that its text is made from the
//! text, and not from a body.
ghost use Rattle.std.specs.Prelude.{◌≡◌, ◌++◌, ◌∷◌, [], ◌<◌, ◌≤◌, IfOk, OnOk, map};
ghost use Rattle.vx_data.specs.Bodies.{tree_depth, deepest_element, deepest_member, members, gathered};
ghost use Rattle.vx_data.specs.BodyText.{body_text, joined, quoted};
ghost use Rattle.vx_data.specs.Tree as tree;
ghost use Rattle.vx_json_parts.specs.Compact.{text_in, spelled_items, spelled_fields, spelled_texts};
ghost use Rattle.vx_json.specs.Grammar.{IsValue, settled};
ghost use Rattle.vx_json_parts.specs.Parts.{IsPart};

use crate::part::{Part, begins, fields_of, items_of};
use std::alloc::Global;
use vx_data::{Body, BodyView, NoMemory, Text};
use vx_json::{MAX_DEPTH, MAX_NESTING, write_body, write_text};

/// The compact JSON text of a value: no spaces, keys in byte order, of a key that comes again the last value.
pub fn compact_text(alloc: Global, part: &Part<'_>) -> Result<Text, NoMemory>
    ensures { (t : tree.Tree) → IsPart t part.now → IfOk result (λ text. text ≡ body_text (settled t)) }
{
    let mut into = Vec::new(alloc);
    append_value(alloc, part, MAX_NESTING, &mut into)?;
    match Text::new(alloc, &into) {
        Ok(text) => Ok(text),
        Err(_) => Err(NoMemory),
    }
}

/// Appends the text of a value that nests no deeper than `room`.
#[cycle(compact)]
fn append_value(
    alloc: Global,
    part: &Part<'_>,
    room: u32,
    into: &mut Vec<u8>,
) -> Result<(), NoMemory>
    requires { room ≤ 127 }
    ensures { (t : tree.Tree) → IsPart t part.now → tree_depth t ≤ room
        → OnOk result (into.new.items ≡ into.old.items ++ body_text (settled t)) }
{
    if part.body.depth() <= MAX_DEPTH {
        return write_body(&part.body, into);
    }
    if room == 0 {
        return Err(NoMemory);
    }
    if begins(part.text, b'[') {
        let texts = item_texts(alloc, part.text, room - 1)?;
        return append_list(&texts, into);
    }
    let texts = field_texts(alloc, part.text, room - 1)?;
    append_object(&texts, into)
}

/// The texts of an array's items, as bytes.
#[cycle(compact)]
fn item_texts(alloc: Global, text: &[u8], room: u32) -> Result<Vec<Body>, NoMemory>
    requires { room < 127 }
    ensures { (es : tree.Elements) → IsValue (tree.array es) text.now → deepest_element es ≤ room
        → IfOk result (λ texts. texts.items ≡ spelled_items es) }
{
    let Ok(items) = items_of(alloc, text, room + 1) else {
        return Err(NoMemory);
    };
    let mut texts = Vec::with_capacity(alloc, items.len())?;
    for item in &items {
        let mut value = Vec::new(alloc);
        append_value(alloc, item, room, &mut value)?;
        texts.push(Body::bytes(value))?;
    }
    Ok(texts)
}

/// The members of an object, each with its text as bytes, in byte order of keys.
#[cycle(compact)]
fn field_texts(alloc: Global, text: &[u8], room: u32) -> Result<Body, NoMemory>
    requires { room < 127 }
    ensures { (ms : tree.Members) → IsValue (tree.object ms) text.now → deepest_member ms ≤ room
        → IfOk result (λ texts. texts ≡ tree.object (gathered (spelled_fields ms))) }
{
    let Ok(fields) = fields_of(alloc, text, room + 1) else {
        return Err(NoMemory);
    };
    let mut pairs = Vec::with_capacity(alloc, fields.len())?;
    for (name, part) in &fields {
        let mut value = Vec::new(alloc);
        append_value(alloc, part, room, &mut value)?;
        pairs.push((name.copy(alloc)?, Body::bytes(value)))?;
    }
    match Body::object(alloc, pairs) {
        Ok(body) => Ok(body),
        Err(_) => Err(NoMemory),
    }
}

/// Appends an array whose items are their texts.
fn append_list(texts: &[Body], into: &mut Vec<u8>) -> Result<(), NoMemory>
    ensures { OnOk result (into.new.items ≡ into.old.items ++ 91 ∷ (joined (map text_in texts.now) ++ 93 ∷ [])) }
{
    let Some((first, more)) = texts.split_first() else {
        return append(b"[]", into);
    };
    append(b"[", into)?;
    append_bytes(first, into)?;
    for text in more {
        append(b",", into)?;
        append_bytes(text, into)?;
    }
    append(b"]", into)
}

/// Appends an object whose values are their texts.
fn append_object(texts: &Body, into: &mut Vec<u8>) -> Result<(), NoMemory>
    ensures { (ms : tree.Members) → texts.now ≡ tree.object ms → OnOk result (into.new.items ≡ into.old.items ++ 123 ∷ (joined (spelled_texts ms) ++ 125 ∷ [])) }
{
    match texts.view() {
        BodyView::Object(pairs) => append_pairs(pairs, into),
        _ => Err(NoMemory),
    }
}

fn append_pairs(pairs: &[(Text, Body)], into: &mut Vec<u8>) -> Result<(), NoMemory>
    ensures { OnOk result (into.new.items ≡ into.old.items ++ 123 ∷ (joined (spelled_texts (members pairs.now)) ++ 125 ∷ [])) }
{
    let Some((first, more)) = pairs.split_first() else {
        return append(b"{}", into);
    };
    append(b"{", into)?;
    append_pair(first, into)?;
    for pair in more {
        append(b",", into)?;
        append_pair(pair, into)?;
    }
    append(b"}", into)
}

fn append_pair(pair: &(Text, Body), into: &mut Vec<u8>) -> Result<(), NoMemory>
    ensures { OnOk result (into.new.items ≡ into.old.items ++ (quoted pair.now.0 ++ 58 ∷ text_in pair.now.1)) }
{
    write_text(&pair.0, into)?;
    append(b":", into)?;
    append_bytes(&pair.1, into)
}

/// Appends the text that the bytes are.
fn append_bytes(text: &Body, into: &mut Vec<u8>) -> Result<(), NoMemory>
    ensures { OnOk result (into.new.items ≡ into.old.items ++ text_in text.now) }
{
    match text.view() {
        BodyView::Bytes(text) => append(text, into),
        _ => Err(NoMemory),
    }
}

fn append(bytes: &[u8], into: &mut Vec<u8>) -> Result<(), NoMemory>
    ensures { OnOk result (into.new.items ≡ into.old.items ++ bytes.now) }
{
    Ok(into.extend_from_slice(bytes)?)
}
