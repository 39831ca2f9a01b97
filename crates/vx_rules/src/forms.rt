ghost use Rattle.std.specs.Prelude.{◌≡◌, ◌<◌, ◌≤◌, ℕ, List, filter, IfOk, IsTrue};
ghost use Rattle.vx_data.specs.Tree.{Tree, object, member, no_members};
ghost use Rattle.vx_data.specs.Bodies.{members, tree_depth, max_depth, IsInOrder};
ghost use Rattle.vx_message.specs.Codecs.{copy_of, is_one_of, object_with, wraps};
ghost use Rattle.vx_rules.specs.Keys.{is_kept};

use std::alloc::Global;
use vx_data::{Body, BodyView, NoMemory, ObjectFault, Text};
use vx_message::CodecForm;

/// What a codec of this form makes of a body. A body that it wraps is less deep than a body may be: at most 100. It
/// fails where memory runs out.
pub fn transform(alloc: Global, form: &CodecForm, body: &Body) -> Result<Body, NoMemory>
    requires { IsTrue (wraps form.now) → tree_depth body.now < max_depth }
    ensures { IfOk result (λ made. made ≡ copy_of form.now body.now) }
{
    match form {
        CodecForm::Copy => body.copy(alloc),
        CodecForm::KeepKeys(keys) => with_keys(alloc, keys.items(), true, body),
        CodecForm::DropKeys(keys) => with_keys(alloc, keys.items(), false, body),
        CodecForm::Wrap(key) => wrapped(alloc, key, body),
    }
}

// Of an object the members whose key is one of these, or is none of them. Any other body as it is.
fn with_keys(alloc: Global, keys: &[Text], keep: bool, body: &Body) -> Result<Body, NoMemory>
    ensures { IfOk result (λ made. made ≡ object_with (is_kept keep keys.now) body.now) }
{
    match body.view() {
        BodyView::Object(pairs) => object(alloc, kept_pairs(alloc, keys, keep, pairs)?),
        _ => body.copy(alloc),
    }
}

// The pairs whose key is one of these, or is none of them.
fn kept_pairs(
    alloc: Global,
    keys: &[Text],
    keep: bool,
    pairs: &[(Text, Body)],
) -> Result<Vec<(Text, Body)>, NoMemory>
    ensures { IfOk result (λ kept. kept.items ≡ filter (λ (pair : List ℕ × Tree). is_kept keep keys.now pair.0) pairs.now) }
{
    let mut kept = Vec::new(alloc);
    for (key, value) in pairs {
        if is_one_of(keys, key) == keep {
            kept.push((key.copy(alloc)?, value.copy(alloc)?))?;
        }
    }
    Ok(kept)
}

// Whether a text is one of these.
fn is_one_of(texts: &[Text], text: &Text) -> bool
    ensures { result ≡ is_one_of texts.now text.now }
{
    texts.iter().any(|other| text.is(other))
}

// An object with this one key, whose value is the body.
fn wrapped(alloc: Global, key: &Text, body: &Body) -> Result<Body, NoMemory>
    requires { tree_depth body.now < max_depth }
    ensures { IfOk result (λ made. made ≡ object (member key.now body.now no_members)) }
{
    let mut pairs = Vec::with_capacity(alloc, 1)?;
    pairs.push((key.copy(alloc)?, body.copy(alloc)?))?;
    object(alloc, pairs)
}

// The object of these pairs, whose keys are in order already, and whose values are not too deep.
fn object(alloc: Global, pairs: Vec<(Text, Body)>) -> Result<Body, NoMemory>
    requires order { IsInOrder (members pairs.items) }
    requires depth { tree_depth (object (members pairs.items)) ≤ max_depth }
    ensures { IfOk result (λ made. made ≡ object (members pairs.items)) }
{
    match Body::object(alloc, pairs) {
        Ok(body) => Ok(body),
        Err(refused) => match refused.why {
            ObjectFault::NoMemory => Err(NoMemory),
            ObjectFault::TooDeep => unreachable!(),
        },
    }
}
