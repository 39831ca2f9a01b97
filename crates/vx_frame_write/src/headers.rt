//! The headers of a frame that goes out.
ghost use Rattle.std.specs.Prelude.{◌≡◌, ◌++◌, List, ℕ, IfOk, OnOk, map};
ghost use Rattle.vx_data.specs.Bodies.{members, gathered};
ghost use Rattle.vx_data.specs.Tree.{object, no_members};
ghost use Rattle.vx_data.specs.Tree as tree;
ghost use Rattle.vx_frame_write.specs.Outgoing.{with_headers, values_tree};
ghost use Rattle.vx_frame_write.specs.Outgoing as outgoing;
ghost use Rattle.vx_frame_write.specs.Written.{more_members, without_values, valued, valued_members};

use crate::write::append;
use std::alloc::Global;
use vx_data::{Body, BodyView, Headers, NoMemory, Text};
use vx_json::write_members;

/// The headers, where there are any, with a comma before them.
pub(crate) fn append_headers(
    alloc: Global,
    headers: &Headers,
    into: &mut Vec<u8>,
) -> Result<(), NoMemory>
    ensures { OnOk result (into.new.items ≡ into.old.items ++ more_members (with_headers headers.now no_members)) }
{
    if headers.pairs().is_empty() {
        return Ok(());
    }
    let names = names_of(alloc, headers.pairs())?;
    let named = named_values(alloc, &names, headers.pairs())?;
    append(b",\"headers\":", into)?;
    write_members(&named, into)
}

/// The names, each once, in byte order.
fn names_of(alloc: Global, pairs: &[(Text, Text)]) -> Result<Body, NoMemory>
    ensures { IfOk result (λ names. names ≡ object (gathered (without_values pairs.now))) }
{
    let mut names = Vec::with_capacity(alloc, pairs.len())?;
    for (name, _) in pairs {
        names.push((name.copy(alloc)?, Body::null()))?;
    }
    match Body::object(alloc, names) {
        Ok(body) => Ok(body),
        Err(_) => Err(NoMemory),
    }
}

/// Each of the names with its values.
fn named_values(
    alloc: Global,
    names: &Body,
    pairs: &[(Text, Text)],
) -> Result<Vec<(Text, Body)>, NoMemory>
    ensures { IfOk result (λ named. members named.items ≡ valued_members pairs.now names.now) }
{
    match names.view() {
        BodyView::Object(names) => with_values(alloc, names, pairs),
        _ => Ok(Vec::new(alloc)),
    }
}

fn with_values(
    alloc: Global,
    names: &[(Text, Body)],
    pairs: &[(Text, Text)],
) -> Result<Vec<(Text, Body)>, NoMemory>
    ensures { IfOk result (λ named. members named.items ≡ valued pairs.now (members names.now)) }
{
    let mut named = Vec::with_capacity(alloc, names.len())?;
    for (name, _) in names {
        named.push((name.copy(alloc)?, values_named(alloc, name, pairs)?))?;
    }
    Ok(named)
}

/// The values of one name, in order: a text where there is one, and else an array of texts.
fn values_named(alloc: Global, name: &Text, pairs: &[(Text, Text)]) -> Result<Body, NoMemory>
    ensures { IfOk result (λ values. values ≡ values_tree (outgoing.values_named name.now pairs.now)) }
{
    let mut values = Vec::new(alloc);
    for (other, value) in pairs {
        if other.is(name) {
            values.push(Body::text(value.copy(alloc)?))?;
        }
    }
    one_or_all(values)
}

/// The one value, or the array of all.
fn one_or_all(mut values: Vec<Body>) -> Result<Body, NoMemory>
    ensures { (texts : List (List ℕ)) → values.items ≡ map tree.text texts → IfOk result (λ body. body ≡ values_tree texts) }
{
    if values.len() == 1 {
        return Ok(values.swap_remove(0));
    }
    match Body::array(values) {
        Ok(body) => Ok(body),
        Err(_) => Err(NoMemory),
    }
}
