//! What the profile takes and refuses, against tables of texts and against `serde_json`.
use serde_json::Value;
use std::alloc::{AllocError, Global};
use std::test::Fail;
use vx_json::{JsonFault, read_body, write_body};

/// Texts that are no JSON.
static REFUSED: [&[u8]; 21] = [
    b"",
    b"\"",
    b"[1,]",
    b"[,1]",
    b"{\"a\":1,}",
    b"{\"a\" 1}",
    b"{a:1}",
    b"nul",
    b"01",
    b"-",
    b"+1",
    b"\"\\ud800\"",
    b"\"\\ud800x\"",
    b"\"\\ud800\\ud800\"",
    b"\"\\udc00\"",
    b"\"\\x\"",
    b"\"\x01\"",
    b"\"\xc0\x80\"",
    b"\xef\xbb\xbf1",
    b"1 x",
    b"1\x0c",
];

/// JSON of RFC 8259, but none of the profile.
static REFUSED_HERE: [&[u8]; 5] = [
    b"1.0",
    b"1e3",
    b"-0",
    b"9223372036854775808",
    b"{\"a\":1.5,\"a\":2}",
];

/// Texts of the profile, and how their bodies are written.
static TAKEN: [(&[u8], &[u8]); 8] = [
    (b"-9223372036854775808", b"-9223372036854775808"),
    (b"9223372036854775807", b"9223372036854775807"),
    (b"{\"a\":1,\"a\":2}", b"{\"a\":2}"),
    (b"{\"b\":1,\"a\":[],\"b\":{}}", b"{\"a\":[],\"b\":{}}"),
    (b" \t[ 1 ,\n2 ]\r ", b"[1,2]"),
    (b"\"\\u0000\\u001f\\b\"", b"\"\\u0000\\u001f\\b\""),
    (
        b"\"\\ud83d\\ude00\\u00e9\\/\"",
        b"\"\xf0\x9f\x98\x80\xc3\xa9/\"",
    ),
    (b"[null,true,false]", b"[null,true,false]"),
];

/// How deep a text nests, and the depth of its body or the fault.
static NESTED: [(usize, Result<u32, JsonFault>); 4] = [
    (100, Ok(100)),
    (101, Err(JsonFault::Deep)),
    (127, Err(JsonFault::Deep)),
    (128, Err(JsonFault::BadJson)),
];

/// The text of a text's body.
fn rewritten(alloc: Global, text: &[u8]) -> Result<Vec<u8>, JsonFault> {
    let body = read_body(alloc, text)?;
    let mut written = Vec::new(alloc);
    write_body(&body, &mut written)?;
    Ok(written)
}

fn is_bad(alloc: Global, text: &[u8]) -> bool {
    matches!(read_body(alloc, text), Err(JsonFault::BadJson))
}

fn is_written_as(alloc: Global, text: &[u8], wanted: &[u8]) -> bool {
    match rewritten(alloc, text) {
        Ok(written) => written.as_slice() == wanted,
        Err(_) => false,
    }
}

fn is_taken_elsewhere(alloc: Global, text: &[u8]) -> bool {
    match std::str::from_utf8(text) {
        Ok(text) => Value::from_str(alloc, text).is_ok(),
        Err(_) => false,
    }
}

#[test]
fn tables(rt: HostRuntime) {
    let alloc = rt.alloc();
    for text in &REFUSED {
        let is_refused = is_bad(alloc, text) && !is_taken_elsewhere(alloc, text);
        assert!(rt; is_refused, "taken: {text:?}");
    }
    for text in &REFUSED_HERE {
        let is_refused = is_bad(alloc, text) && is_taken_elsewhere(alloc, text);
        assert!(rt; is_refused, "not refused here alone: {text:?}");
    }
    for (text, written) in &TAKEN {
        let is_taken = is_written_as(alloc, text, written) && is_taken_elsewhere(alloc, text);
        assert!(rt; is_taken, "not taken: {text:?}");
    }
}

/// So many opening brackets, the middle, and as many closing ones.
fn append_nested(text: &mut Vec<u8>, depth: usize, middle: &[u8]) -> Result<(), AllocError> {
    for _ in 0..depth {
        text.push(b'[')?;
    }
    text.extend_from_slice(middle)?;
    for _ in 0..depth {
        text.push(b']')?;
    }
    Ok(())
}

#[test]
fn nesting(rt: HostRuntime) -> Result<(), Fail> {
    for (nested, depth) in &NESTED {
        let mut text = Vec::new(rt.alloc());
        append_nested(&mut text, *nested, b"")?;
        let found = read_body(rt.alloc(), &text).map(|body| body.depth());
        assert!(rt; found == *depth, "at {nested}");
    }
    // A value that a later one of its key replaces counts for nesting, and not for depth.
    let mut text = Vec::from_slice(rt.alloc(), b"{\"a\":")?;
    append_nested(&mut text, 120, b"1")?;
    text.extend_from_slice(b",\"a\":2}")?;
    let is_read = is_written_as(rt.alloc(), &text, b"{\"a\":2}");
    assert!(rt; is_read);
    Ok(())
}

#[test]
fn long_text(rt: HostRuntime) -> Result<(), Fail> {
    let mut text = Vec::from_slice(rt.alloc(), b"\"")?;
    for _ in 0..1_048_574 {
        text.push(b'x')?;
    }
    text.push(b'"')?;
    let size = read_body(rt.alloc(), &text).map(|body| body.size());
    assert!(rt; size == Ok(1_048_576));
    Ok(())
}

#[test]
fn messages(rt: HostRuntime) -> Result<(), Fail> {
    let texts = format!(in rt.alloc();
        "{}, {}, {}",
        JsonFault::BadJson,
        JsonFault::Deep,
        JsonFault::NoMemory
    )?;
    assert_eq!(rt; texts.as_str(), "bad json, too deep, no memory");
    Ok(())
}
