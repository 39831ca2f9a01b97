//! Frames as lines.
use std::alloc::Global;
use vx_data::{NoMemory, Text};
use vx_json::write_body;
use vx_message::{FrameMessage, InFrame};

/// A frame as a line: its kind, address, reply address, headers and body.
pub fn line_of(alloc: Global, frame: &InFrame) -> Result<Vec<u8>, NoMemory> {
    let mut line = Vec::new(alloc);
    append_frame(frame, &mut line)?;
    Ok(line)
}

pub fn append_frame(frame: &InFrame, line: &mut Vec<u8>) -> Result<(), NoMemory> {
    match frame {
        InFrame::Ping => append(b"ping", line),
        InFrame::UnknownType => append(b"unknown type", line),
        InFrame::NoAddress => append(b"no address", line),
        InFrame::Large => append(b"large", line),
        InFrame::BadJson => append(b"bad json", line),
        InFrame::TooLong(_) => append(b"too long", line),
        InFrame::Register(address) => append_named(b"register ", address, line),
        InFrame::Unregister(address) => append_named(b"unregister ", address, line),
        InFrame::Send { message, reply } => {
            append_named(b"send ", &message.address, line)?;
            if let Some(reply) = reply {
                append_named(b" reply ", reply, line)?;
            }
            append_rest(message, line)
        }
        InFrame::Publish(message) => {
            append_named(b"publish ", &message.address, line)?;
            append_rest(message, line)
        }
    }
}

pub fn append(word: &[u8], line: &mut Vec<u8>) -> Result<(), NoMemory> {
    Ok(line.extend_from_slice(word)?)
}

fn append_named(word: &[u8], name: &Text, line: &mut Vec<u8>) -> Result<(), NoMemory> {
    append(word, line)?;
    append(name.bytes(), line)
}

fn append_rest(message: &FrameMessage, line: &mut Vec<u8>) -> Result<(), NoMemory> {
    for (name, value) in message.headers.pairs() {
        append_named(b" +", name, line)?;
        append_named(b"=", value, line)?;
    }
    append(b" ", line)?;
    write_body(&message.body, line)
}
