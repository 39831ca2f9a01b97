//! Outlines of values that stand in a text: bodies down to so many levels, with null in the place of what stands deeper.
//! A value may be deeper than a body, while all that a file is read from stands in its uppermost levels.
ghost use Rattle.std.specs.Prelude.{◌≡◌, ◌+◌, ◌≤◌, IfOk};
ghost use Rattle.vx_data.specs.Bodies.{tree_depth};
ghost use Rattle.vx_data.specs.Tree as tree;
ghost use Rattle.vx_deployfile.specs.Outlines as outlines;
ghost use Rattle.vx_json.specs.Grammar.{IsValue};
ghost use Rattle.vx_json_parts.specs.Parts.{IsPart, AreFields};

use std::alloc::Global;
use vx_data::{Body, NoMemory, Text};
use vx_json_parts::{Form, Part, read_fields, read_items};

/// The outline of a value.
#[cycle(outline)]
fn outline(alloc: Global, part: &Part<'_>, levels: u32) -> Result<Body, NoMemory>
    ensures { (t : tree.Tree) → IsPart t part.now → IfOk result (λ body. body ≡ outlines.outline levels t) }
{
    match part.form() {
        Form::Scalar => part.body.copy(alloc),
        Form::Array => array(alloc, part.text, levels),
        Form::Object => object(alloc, part.text, levels),
    }
}

/// The outline of an array.
#[cycle(outline)]
fn array(alloc: Global, text: &[u8], levels: u32) -> Result<Body, NoMemory>
    ensures { (es : tree.Elements) → IsValue (tree.array es) text.now → tree_depth (tree.array es) ≤ 127
        → IfOk result (λ body. body ≡ outlines.outline levels (tree.array es)) }
{
    if levels == 0 {
        return Ok(Body::null());
    }
    let Ok(parts) = read_items(alloc, text) else {
        return Err(NoMemory);
    };
    let mut items = Vec::new(alloc);
    for part in &parts {
        let body = outline(alloc, part, levels - 1)?;
        items.push(body)?;
    }
    match Body::array(items) {
        Ok(body) => Ok(body),
        Err(_) => Err(NoMemory),
    }
}

/// The outline of an object.
#[cycle(outline)]
fn object(alloc: Global, text: &[u8], levels: u32) -> Result<Body, NoMemory>
    ensures { (ms : tree.Members) → IsValue (tree.object ms) text.now → tree_depth (tree.object ms) ≤ 127
        → IfOk result (λ body. body ≡ outlines.outline levels (tree.object ms)) }
{
    if levels == 0 {
        return Ok(Body::null());
    }
    let Ok(fields) = read_fields(alloc, text) else {
        return Err(NoMemory);
    };
    members(alloc, &fields, levels - 1)
}

/// An object whose members are the outlines of these.
#[cycle(outline)]
pub(crate) fn members(
    alloc: Global,
    fields: &[(Text, Part<'_>)],
    levels: u32,
) -> Result<Body, NoMemory>
    ensures { (ms : tree.Members) → AreFields ms fields.now
        → IfOk result (λ body. body ≡ outlines.outline (levels + 1) (tree.object ms)) }
{
    let mut pairs = Vec::new(alloc);
    for (name, part) in fields {
        let name = name.copy(alloc)?;
        let body = outline(alloc, part, levels)?;
        pairs.push((name, body))?;
    }
    match Body::object(alloc, pairs) {
        Ok(body) => Ok(body),
        Err(_) => Err(NoMemory),
    }
}
