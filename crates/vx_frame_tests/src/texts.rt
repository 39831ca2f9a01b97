//! Frames of JSON texts, against tables, and at each limit.
use crate::line::line_of;
use std::alloc::{AllocError, Global};
use std::test::Fail;
use vx_data::NoMemory;
use vx_frame_read::read_frame;

/// JSON texts, and the frames that they are.
static FRAMES: [(&[u8], &[u8]); 34] = [
    (b"{\"type\":\"ping\"}", b"ping"),
    (b"{\"type\":\"pung\"}", b"unknown type"),
    (b"{}", b"unknown type"),
    (b"{\"type\":1}", b"unknown type"),
    (b"{\"type\":\"send\"}", b"no address"),
    (b"{\"type\":\"send\",\"address\":7}", b"no address"),
    (b"7", b"bad json"),
    (b"", b"bad json"),
    (b"[]", b"bad json"),
    (b"{\"type\":\"ping\"}x", b"bad json"),
    (b"{\"type\":\"ping\",\"n\":1.5}", b"bad json"),
    (b" \t\r\n{ \"type\" : \"ping\" } ", b"ping"),
    (
        b"{\"type\":\"register\",\"address\":\"news\"}",
        b"register news",
    ),
    (
        b"{\"address\":\"news\",\"type\":\"unregister\"}",
        b"unregister news",
    ),
    // A missing body is null, and unknown fields are ignored.
    (
        b"{\"type\":\"send\",\"address\":\"a\",\"extra\":[{}]}",
        b"send a null",
    ),
    (
        b"{\"type\":\"send\",\"address\":\"echo\",\"replyAddress\":\"r1\",\"body\":{\"n\":1},\"extra\":true}",
        b"send echo reply r1 {\"n\":1}",
    ),
    (
        b"{\"type\":\"send\",\"address\":\"a\",\"replyAddress\":\"\"}",
        b"send a reply  null",
    ),
    (
        b"{\"type\":\"send\",\"address\":\"a\",\"replyAddress\":3}",
        b"send a null",
    ),
    (
        b"{\"type\":\"publish\",\"address\":\"a\",\"replyAddress\":\"r\",\"body\":[ 1, 2 ]}",
        b"publish a [1,2]",
    ),
    // Of a key that comes again the last counts.
    (
        b"{\"type\":\"ping\",\"type\":\"send\",\"address\":\"a\",\"address\":\"b\"}",
        b"send b null",
    ),
    (b"{\"type\":\"send\",\"type\":\"ping\"}", b"ping"),
    (
        b"{\"type\":\"send\",\"address\":\"a\",\"address\":7}",
        b"no address",
    ),
    (
        b"{\"type\":\"send\",\"address\":\"a\",\"body\":1,\"body\":2}",
        b"send a 2",
    ),
    (
        b"{\"type\":\"send\",\"address\":\"a\",\"headers\":7}",
        b"send a null",
    ),
    (
        b"{\"type\":\"send\",\"address\":\"a\",\"headers\":{}}",
        b"send a null",
    ),
    (
        b"{\"type\":\"send\",\"address\":\"a\",\"headers\":{\"b\":\"1\",\"a\":\"2\"}}",
        b"send a +a=2 +b=1 null",
    ),
    (
        b"{\"type\":\"send\",\"address\":\"a\",\"headers\":{\"h\":null}}",
        b"send a null",
    ),
    (
        b"{\"type\":\"send\",\"address\":\"a\",\"headers\":{\"h\":[\"x\",null,7,[ \"y\" ]]}}",
        b"send a +h=x +h=null +h=7 +h=[\"y\"] null",
    ),
    (
        b"{\"type\":\"send\",\"address\":\"a\",\"headers\":{\"h\":[]}}",
        b"send a null",
    ),
    (
        b"{\"type\":\"send\",\"address\":\"a\",\"headers\":{\"h\":true,\"n\":-5}}",
        b"send a +h=true +n=-5 null",
    ),
    (
        b"{\"type\":\"send\",\"address\":\"a\",\"headers\":{\"h\":{ \"b\" : 1, \"a\" : [ ], \"b\" : 2 }}}",
        b"send a +h={\"a\":[],\"b\":2} null",
    ),
    (
        b"{\"type\":\"send\",\"address\":\"a\",\"headers\":{\"h\":\"1\",\"h\":\"2\",\"h\":[\"3\",\"4\"]}}",
        b"send a +h=3 +h=4 null",
    ),
    (
        b"{\"type\":\"send\",\"address\":\"a\",\"headers\":{\"h\":\"1\"},\"headers\":{\"g\":\"2\"}}",
        b"send a +g=2 null",
    ),
    (
        b"{\"type\":\"send\",\"address\":\"a\",\"headers\":{\"h\":[{\"k\":\"\\u0041\\/\"}]}}",
        b"send a +h={\"k\":\"A/\"} null",
    ),
];

/// Whether the text is this frame.
fn is_frame(alloc: Global, json: &[u8], line: &[u8]) -> Result<bool, NoMemory> {
    let frame = read_frame(alloc, json)?;
    Ok(line_of(alloc, &frame)?.as_slice() == line)
}

#[test]
fn frames_of_texts(rt: HostRuntime) -> Result<(), Fail> {
    for (json, line) in &FRAMES {
        let is_frame = is_frame(rt.alloc(), json, line)?;
        assert!(rt; is_frame, "not {line:?}");
    }
    Ok(())
}

const BODY: &[u8] = b"{\"type\":\"send\",\"address\":\"a\",\"body\":";

const UNKNOWN: &[u8] = b"{\"type\":\"ping\",\"x\":";

const SENT: &[u8] = b"{\"type\":\"send\",\"address\":\"a\",\"replyAddress\":\"";

const PUBLISHED: &[u8] = b"{\"type\":\"publish\",\"address\":\"a\",\"replyAddress\":\"";

const VALUES: &[u8] = b"{\"type\":\"send\",\"address\":\"a\",\"headers\":{\"h\":[0";

const HEADER: &[u8] = b"{\"type\":\"send\",\"address\":\"a\",\"headers\":{\"hh\":\"";

const DEEP: &[u8] =
    b"{\"type\":\"send\",\"address\":\"a\",\"headers\":{\"h\":{ \"b\" : 1, \"a\" : ";

/// A text: what it begins with, a part that comes so many times, one that comes as often behind it, and its end; and how
/// the line of its frame begins.
static LIMITS: [(&[u8], &[u8], usize, &[u8], &[u8], &[u8]); 15] = [
    (BODY, b"[", 100, b"]", b"}", b"send a [[[["),
    (BODY, b"[", 101, b"]", b"}", b"large"),
    (BODY, b"[", 126, b"]", b"}", b"large"),
    (BODY, b"[", 127, b"]", b"}", b"bad json"),
    // A body that a later one takes the place of counts for nesting alone, and so do unknown fields.
    (BODY, b"[", 126, b"]", b",\"body\":1}", b"send a 1"),
    (UNKNOWN, b"[", 126, b"]", b"}", b"ping"),
    (UNKNOWN, b"[", 127, b"]", b"}", b"bad json"),
    (SENT, b"r", 1024, b"", b"\"}", b"send a reply rrrr"),
    (SENT, b"r", 1025, b"", b"\"}", b"large"),
    (PUBLISHED, b"r", 1025, b"", b"\"}", b"large"),
    (VALUES, b",0", 1023, b"", b"]}}", b"send a +h=0 +h=0"),
    (VALUES, b",0", 1024, b"", b"]}}", b"large"),
    (HEADER, b"xx", 32_767, b"", b"\"}}", b"send a +hh=xx"),
    (HEADER, b"xx", 32_768, b"", b"\"}}", b"large"),
    // A value that is deeper than a body may be, with keys out of order.
    (DEEP, b"[", 120, b"]", b"}}}", b"send a +h={\"a\":[[[["),
];

fn append_times(part: &[u8], count: usize, text: &mut Vec<u8>) -> Result<(), AllocError> {
    for _ in 0..count {
        text.extend_from_slice(part)?;
    }
    Ok(())
}

/// Whether the line of the text's frame begins like this.
fn begins(alloc: Global, json: &[u8], line: &[u8]) -> Result<bool, NoMemory> {
    let frame = read_frame(alloc, json)?;
    Ok(line_of(alloc, &frame)?.starts_with(line))
}

#[test]
fn limits_of_frames(rt: HostRuntime) -> Result<(), Fail> {
    for (before, opening, count, closing, after, line) in &LIMITS {
        let mut json = Vec::from_slice(rt.alloc(), before)?;
        append_times(opening, *count, &mut json)?;
        append_times(closing, *count, &mut json)?;
        json.extend_from_slice(after)?;
        let begins = begins(rt.alloc(), &json, line)?;
        assert!(rt; begins, "not {line:?}");
    }
    Ok(())
}
