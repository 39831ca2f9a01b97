//! The values of one header.
ghost use Rattle.std.specs.Prelude.{◌≡◌, IfOk};
ghost use Rattle.vx_data.specs.Bodies.{elements};
ghost use Rattle.vx_data.specs.Tree.{Tree, Elements, array};
ghost use Rattle.vx_json.specs.Grammar.{settled, settled_elements, IsJson};
ghost use Rattle.vx_json_parts.specs.Parts.{IsPart};
ghost use Rattle.vx_frame_read.specs.HeaderPairs as pairs;
ghost use Rattle.vx_frame_read.specs.Fields.{texts_tree};

use std::alloc::Global;
use vx_data::{Body, BodyView, NoMemory, Text};
use vx_json_parts::{Form, Part, compact_text, read_items};

/// The texts that a field of the headers has as its values, as an array.
pub(crate) fn values_of(alloc: Global, part: &Part<'_>) -> Result<Body, NoMemory>
    ensures { (t : Tree) → IsPart t part.now → IfOk result (λ body. body ≡ texts_tree (pairs.values_of (settled t))) }
{
    match part.form() {
        Form::Array => item_texts(alloc, part.text),
        _ => one_text(alloc, part),
    }
}

/// The texts of an array's items.
fn item_texts(alloc: Global, text: &[u8]) -> Result<Body, NoMemory>
    ensures { (es : Elements) → IsJson (array es) text.now → IfOk result (λ body. body ≡ texts_tree (pairs.plain_texts (settled_elements es))) }
{
    let Ok(items) = read_items(alloc, text) else {
        return Err(NoMemory);
    };
    let mut texts = Vec::with_capacity(alloc, items.len())?;
    for item in &items {
        texts.push(Body::text(plain_text(alloc, item)?))?;
    }
    array_of(texts)
}

/// The text of a value that is no array, and none where it is null.
fn one_text(alloc: Global, part: &Part<'_>) -> Result<Body, NoMemory>
    ensures { (t : Tree) → IsPart t part.now → IfOk result (λ body. body ≡ texts_tree (pairs.one_value (settled t))) }
{
    let mut texts = Vec::new(alloc);
    if !is_null(&part.body) {
        texts.push(Body::text(plain_text(alloc, part)?))?;
    }
    array_of(texts)
}

fn is_null(body: &Body) -> bool
    ensures { result ≡ pairs.is_null body.now }
{
    matches!(body.view(), BodyView::Null)
}

/// An array is not too deep where its items are texts.
fn array_of(texts: Vec<Body>) -> Result<Body, NoMemory>
    ensures { IfOk result (λ body. body ≡ array (elements texts.items)) }
{
    match Body::array(texts) {
        Ok(body) => Ok(body),
        Err(_) => Err(NoMemory),
    }
}

/// A text as it is, and the compact JSON text of any other value.
fn plain_text(alloc: Global, part: &Part<'_>) -> Result<Text, NoMemory>
    ensures { (t : Tree) → IsPart t part.now → IfOk result (λ text. text ≡ pairs.plain_text (settled t)) }
{
    match part.body.view() {
        BodyView::Text(text) => text.copy(alloc),
        _ => compact_text(alloc, part),
    }
}
