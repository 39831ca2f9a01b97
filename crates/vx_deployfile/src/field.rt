//! The fields of a JSON object, each by its name, with its type and its rule.
ghost use Rattle.std.specs.Prelude.{◌≡◌, ◌≤◌, option_map, IfOk};
ghost use Rattle.vx_data.specs.Bodies.{members, elements};
ghost use Rattle.vx_deployfile.specs.Verdicts.{Gives};
ghost use Rattle.vx_deployfile.specs.Fields as fields;

use crate::fault::{FileRefused, FileWhy, Place};
use std::alloc::Global;
use vx_data::{Body, BodyView, Text};

/// How many bytes an address and a pool's name may have.
const MAX_NAME_BYTES: usize = 1024;

/// A place that is out of form, and how.
pub(crate) fn bad(place: Place, why: FileWhy) -> FileRefused
    ensures { result ≡ fields.misfit place why }
{
    FileRefused::BadFile { place, why }
}

/// The value of a field, if it is there.
pub(crate) fn field<'a>(pairs: &'a [(Text, Body)], name: &[u8]) -> Option<&'a Body>
    ensures { option_map (λ value. value.now) result ≡ fields.field name.now (members pairs.entry.now) }
{
    for (key, value) in pairs {
        if name == key.bytes() {
            return Some(value);
        }
    }
    None
}

/// The value of a field that is required.
pub(crate) fn required<'a>(
    pairs: &'a [(Text, Body)],
    name: &[u8],
    place: Place,
) -> Result<&'a Body, FileRefused>
    ensures { Gives (λ value. value.now) result (fields.required place (fields.field name.now (members pairs.entry.now))) }
{
    field(pairs, name).ok_or(bad(place, FileWhy::Missing))
}

/// The members of an object.
pub(crate) fn object(body: &Body, place: Place) -> Result<&[(Text, Body)], FileRefused>
    ensures { Gives (λ pairs. members pairs.now) result (fields.object_in place body.now) }
{
    match body.view() {
        BodyView::Object(pairs) => Ok(pairs),
        _ => Err(bad(place, FileWhy::Shape)),
    }
}

/// The items of an array.
pub(crate) fn array(body: &Body, place: Place) -> Result<&[Body], FileRefused>
    ensures { Gives (λ items. elements items.now) result (fields.array_in place body.now) }
{
    match body.view() {
        BodyView::Array(items) => Ok(items),
        _ => Err(bad(place, FileWhy::Shape)),
    }
}

/// A whole number from `least` to `most`.
pub(crate) fn number(body: &Body, least: u32, most: u64, place: Place) -> Result<u64, FileRefused>
    requires { most ≤ 1000000000000 }
    ensures number { result ≡ fields.number_in place least most body.now }
    ensures bound { IfOk result (λ n. n ≤ most) }
{
    match body.view() {
        BodyView::Int(n) => {
            if n < i64::from(least) || n > most as i64 {
                return Err(bad(place, FileWhy::Range));
            }
            Ok(n as u64)
        }
        _ => Err(bad(place, FileWhy::Shape)),
    }
}

/// A whole number of a field, from `least` to `most`, or another where the field is not there.
pub(crate) fn number_or(
    otherwise: u64,
    body: Option<&Body>,
    least: u32,
    most: u64,
    place: Place,
) -> Result<u64, FileRefused>
    requires most { most ≤ 1000000000000 }
    requires otherwise { otherwise ≤ most }
    ensures number { result ≡ fields.number_or otherwise place least most (option_map (λ value. value.now) body.entry) }
    ensures bound { IfOk result (λ n. n ≤ most) }
{
    match body {
        Some(body) => number(body, least, most, place),
        None => Ok(otherwise),
    }
}

/// A text.
pub(crate) fn text(body: &Body, place: Place) -> Result<&Text, FileRefused>
    ensures { Gives (λ text. text.now) result (fields.text_in place body.now) }
{
    match body.view() {
        BodyView::Text(text) => Ok(text),
        _ => Err(bad(place, FileWhy::Shape)),
    }
}

/// A text of 1 to 1,024 bytes.
pub(crate) fn name(body: &Body, place: Place) -> Result<&Text, FileRefused>
    ensures { Gives (λ name. name.now) result (fields.name_in place body.now) }
{
    let text = text(body, place)?;
    if text.len() == 0 || text.len() > MAX_NAME_BYTES {
        return Err(bad(place, FileWhy::Range));
    }
    Ok(text)
}

/// The text of 1 to 1,024 bytes of a field, or another where the field is not there.
pub(crate) fn name_or<'a>(
    otherwise: &'a Text,
    body: Option<&'a Body>,
    place: Place,
) -> Result<&'a Text, FileRefused>
    ensures { Gives (λ name. name.now) result (fields.name_or otherwise.entry.now place (option_map (λ value. value.now) body.entry)) }
{
    match body {
        Some(body) => name(body, place),
        None => Ok(otherwise),
    }
}

/// The truth value of a field, or false where the field is not there.
pub(crate) fn flag(body: Option<&Body>, place: Place) -> Result<bool, FileRefused>
    ensures { result ≡ fields.flag_in place (option_map (λ value. value.now) body.entry) }
{
    let Some(body) = body else {
        return Ok(false);
    };
    match body.view() {
        BodyView::Bool(flag) => Ok(flag),
        _ => Err(bad(place, FileWhy::Shape)),
    }
}

/// The whole numbers of an array.
pub(crate) fn numbers(alloc: Global, items: &[Body], place: Place) -> Result<Vec<i64>, FileRefused>
    ensures { Gives (λ numbers. numbers.items) result (fields.numbers_in place (elements items.now)) }
{
    let mut numbers = Vec::new(alloc);
    for item in items {
        match item.view() {
            BodyView::Int(n) => numbers.push(n)?,
            _ => return Err(bad(place, FileWhy::Shape)),
        }
    }
    Ok(numbers)
}
