//! Streams in pieces, against every cut of them.
ghost use Rattle.std.specs.Prelude.{◌<◌};

use crate::line::{append, append_frame};
use std::alloc::Global;
use std::test::Fail;
use vx_data::NoMemory;
use vx_frame::{FrameReader, Next};

/// Streams, and what a reader gives of each, with a line for each frame.
static STREAMS: [(&[u8], &[u8]); 7] = [
    (b"", b"0 left"),
    (b"\x00\x00", b"2 left"),
    (
        b"\x00\x00\x00\x0f{\"type\":\"ping\"}\x00\x00\x00\x0f{\"type\":\"pung\"}\x00\x00\x00\x02{}\x00\x00\x00\x0f{\"type\":\"ping\"}",
        b"ping\nunknown type\nunknown type\nping\n0 left",
    ),
    (b"\x00\x00\x00\x0f{\"type\":\"ping\"", b"18 left"),
    (
        b"\x00\x10\x00\x01\x00\x00\x00\x0f{\"type\":\"ping\"}",
        b"too long\nended",
    ),
    (
        b"\x00\x00\x00\x10{\"type\":\"ping\"}x\x00\x00\x00\x0f{\"type\":\"ping\"}",
        b"bad json\nended",
    ),
    (
        b"\x00\x00\x00\x00\x00\x00\x00\x0f{\"type\":\"ping\"}",
        b"bad json\nended",
    ),
];

/// Appends a line for each frame that is whole. What the reader said where none was.
fn append_given(
    reader: &mut FrameReader,
    most: usize,
    lines: &mut Vec<u8>,
) -> Result<(), NoMemory> {
    for _ in 0..most {
        match reader.next()? {
            Next::Frame(frame) => {
                append_frame(&frame, lines)?;
                append(b"\n", lines)?;
            }
            _ => return Ok(()),
        }
    }
    Ok(())
}

fn append_last(reader: &mut FrameReader, lines: &mut Vec<u8>) -> Result<(), NoMemory> {
    match reader.next()? {
        Next::Frame(_) => append(b"a frame", lines),
        Next::Part(count) => {
            append(itoa::Buffer::new().format(count).as_bytes(), lines)?;
            append(b" left", lines)
        }
        Next::Ended => append(b"ended", lines),
    }
}

/// What a reader gives of a stream in pieces of this length.
fn given(alloc: Global, stream: &[u8], len: usize) -> Result<Vec<u8>, NoMemory>
    requires { 0 < len }
{
    let mut reader = FrameReader::new(alloc);
    let mut lines = Vec::new(alloc);
    for piece in stream.chunks(len) {
        reader.feed(piece)?;
        append_given(&mut reader, stream.len(), &mut lines)?;
    }
    append_last(&mut reader, &mut lines)?;
    Ok(lines)
}

#[test]
fn streams_in_any_pieces(rt: HostRuntime) -> Result<(), Fail> {
    for (stream, wanted) in &STREAMS {
        for len in 1..=stream.len() {
            let given = given(rt.alloc(), stream, len)?;
            assert!(rt;
                given.as_slice() == *wanted,
                "not {wanted:?} in pieces of {len}"
            );
        }
    }
    Ok(())
}

#[test]
fn the_longest_frame(rt: HostRuntime) -> Result<(), Fail> {
    let mut stream = Vec::from_slice(rt.alloc(), b"\x00\x10\x00\x00{\"type\":\"ping\",\"x\":\"")?;
    for _ in 0..1_048_576 - 22 {
        stream.push(b'x')?;
    }
    stream.extend_from_slice(b"\"}")?;
    let given = given(rt.alloc(), &stream, 65_536)?;
    assert!(rt; given.as_slice() == b"ping\n0 left".as_slice());
    Ok(())
}
