//! The parts of texts, at values from outside.
use std::alloc::{AllocError, Global};
use std::test::Fail;
use vx_data::NoMemory;
use vx_json::JsonFault;
use vx_json_parts::{Part, compact_text, read_fields, read_items};

/// Whether the part stands in these bytes, and has this compact text.
fn is_part(alloc: Global, part: &Part<'_>, text: &[u8], compact: &str) -> Result<bool, NoMemory> {
    Ok(part.text == text && compact_text(alloc, part)?.as_str() == compact)
}

/// Whether the second of two fields is this one.
fn has_second(
    alloc: Global,
    object: &[u8],
    name: &str,
    text: &[u8],
    compact: &str,
) -> Result<bool, JsonFault> {
    let fields = read_fields(alloc, object)?;
    match fields.get(1) {
        Some((found, part)) => {
            Ok(fields.len() == 2 && found.as_str() == name && is_part(alloc, part, text, compact)?)
        }
        None => Ok(false),
    }
}

/// Whether the second of two items is this one.
fn has_item(alloc: Global, array: &[u8], text: &[u8], compact: &str) -> Result<bool, JsonFault> {
    let items = read_items(alloc, array)?;
    match items.get(1) {
        Some(part) => Ok(items.len() == 2 && is_part(alloc, part, text, compact)?),
        None => Ok(false),
    }
}

#[test]
fn parts(rt: HostRuntime) -> Result<(), Fail> {
    let alloc = rt.alloc();
    let has_second = has_second(
        alloc,
        b" {\"a\" : 1, \"a\":\t{ \"b\" : 1 , \"a\":[ ],\"b\":\"\\u0041\"} }",
        "a",
        b"{ \"b\" : 1 , \"a\":[ ],\"b\":\"\\u0041\"}",
        "{\"a\":[],\"b\":\"A\"}",
    )?;
    let has_item = has_item(alloc, b"[null , -7 ]", b"-7", "-7")?;
    assert!(rt; has_second && has_item);
    Ok(())
}

#[test]
fn not_parts(rt: HostRuntime) {
    let is_no_object = matches!(read_fields(rt.alloc(), b"[1]"), Err(JsonFault::BadJson));
    let is_no_array = matches!(read_items(rt.alloc(), b"[1,]"), Err(JsonFault::BadJson));
    assert!(rt; is_no_object && is_no_array);
}

/// So many objects with one field, each in another.
fn nested(alloc: Global, depth: usize, field: &[u8]) -> Result<Vec<u8>, AllocError> {
    let mut text = Vec::new(alloc);
    for _ in 0..depth {
        text.extend_from_slice(field)?;
    }
    text.push(b'1')?;
    for _ in 0..depth {
        text.push(b'}')?;
    }
    Ok(text)
}

/// A value that is deeper than a body has its text all the same.
#[test]
fn deep_parts(rt: HostRuntime) -> Result<(), Fail> {
    let spaced = nested(rt.alloc(), 127, b"{ \"a\":0, \"a\" : ")?;
    let compact = nested(rt.alloc(), 126, b"{\"a\":")?;
    let fields = read_fields(rt.alloc(), &spaced)?;
    assert!(rt; fields.len() == 2 && fields[1].1.body.depth() == 101);
    let text = compact_text(rt.alloc(), &fields[1].1)?;
    assert!(rt; text.bytes() == compact.as_slice());
    Ok(())
}
