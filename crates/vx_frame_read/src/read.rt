//! The frame of a JSON text.
ghost use Rattle.std.specs.Prelude.{◌≡◌, IfOk, option_and_then, option_map};
ghost use Rattle.vx_data.specs.Tree.{Members};
ghost use Rattle.vx_json_parts.specs.Parts.{AreFields};
ghost use Rattle.vx_frame_read.specs.Fields.{kind_named, framed_message};
ghost use Rattle.vx_frame_read.specs.Frames.{IsFrameOf, frame_of_members, is_long};
ghost use Rattle.vx_message.specs.declared.frame.InFrame.{InFrame};

use crate::fields::{copied, last, last_body, text_field};
use crate::headers::headers_of;
use std::alloc::Global;
use vx_data::{NoMemory, Text};
use vx_json::{JsonFault, MAX_DEPTH};
use vx_json_parts::{Part, read_fields};
use vx_message::{FrameMessage, InFrame};

/// How many bytes a reply address may have.
const MAX_REPLY_LEN: usize = 1024;

/// The frame that the JSON is: that of its object's fields, and a bad one where it is no object of the profile with
/// nesting of at most 127.
pub fn read_frame(alloc: Global, json: &[u8]) -> Result<InFrame, NoMemory>
    // What is read is the frame of the text.
    ensures found { IfOk result (λ frame. IsFrameOf frame json.now) }
    // The frame of the text is read, unless memory runs out.
    ensures only { (frame : InFrame) → IsFrameOf frame json.now → IfOk result (λ found. found ≡ frame) }
{
    match read_fields(alloc, json) {
        Ok(fields) => frame_of(alloc, fields),
        Err(JsonFault::NoMemory) => Err(NoMemory),
        Err(_) => Ok(InFrame::BadJson),
    }
}

/// What a frame asks for.
#[derive(Clone, Copy)]
enum Kind {
    Ping,
    Register,
    Unregister,
    Send,
    Publish,
}

/// The frame of an object's fields.
fn frame_of(alloc: Global, fields: Vec<(Text, Part<'_>)>) -> Result<InFrame, NoMemory>
    ensures { (ms : Members) → AreFields ms fields.entry.items → IfOk result (λ frame. frame ≡ frame_of_members ms) }
{
    let Some(kind) = kind_of(text_field(&fields, "type")) else {
        return Ok(InFrame::UnknownType);
    };
    let address = copied(alloc, text_field(&fields, "address"))?;
    match (kind, address) {
        (Kind::Ping, _) => Ok(InFrame::Ping),
        (_, None) => Ok(InFrame::NoAddress),
        (Kind::Register, Some(address)) => Ok(InFrame::Register(address)),
        (Kind::Unregister, Some(address)) => Ok(InFrame::Unregister(address)),
        (Kind::Send, Some(address)) => message_of(alloc, false, address, fields),
        (Kind::Publish, Some(address)) => message_of(alloc, true, address, fields),
    }
}

/// What the type asks for, if it is a text.
fn kind_of(kind: Option<&Text>) -> Option<Kind>
    ensures { result ≡ option_and_then kind_named (option_map (λ text. text.now) kind.entry) }
{
    match kind {
        Some(kind) => kind_named(kind.as_str()),
        None => None,
    }
}

fn kind_named(kind: &str) -> Option<Kind>
    ensures { result ≡ kind_named kind.now }
{
    if kind == "ping" {
        Some(Kind::Ping)
    } else if kind == "register" {
        Some(Kind::Register)
    } else if kind == "unregister" {
        Some(Kind::Unregister)
    } else if kind == "send" {
        Some(Kind::Send)
    } else if kind == "publish" {
        Some(Kind::Publish)
    } else {
        None
    }
}

/// The message that a frame sends or publishes, where no part of it passes a limit.
fn message_of(
    alloc: Global,
    publish: bool,
    address: Text,
    fields: Vec<(Text, Part<'_>)>,
) -> Result<InFrame, NoMemory>
    ensures { (ms : Members) → AreFields ms fields.entry.items → IfOk result (λ frame. frame ≡ framed_message publish address ms) }
{
    let Some(headers) = headers_of(alloc, last(&fields, "headers"))? else {
        return Ok(InFrame::Large);
    };
    let reply = text_field(&fields, "replyAddress");
    if is_long(reply) {
        return Ok(InFrame::Large);
    }
    let reply = copied(alloc, reply)?;
    let body = last_body(fields, "body");
    if body.depth() > MAX_DEPTH {
        return Ok(InFrame::Large);
    }
    let message = FrameMessage {
        address,
        headers,
        body,
    };
    if publish {
        Ok(InFrame::Publish(message))
    } else {
        Ok(InFrame::Send { message, reply })
    }
}

/// Whether a reply address is too long.
fn is_long(reply: Option<&Text>) -> bool
    ensures { result ≡ is_long (option_map (λ text. text.now) reply.entry) }
{
    match reply {
        Some(reply) => reply.len() > MAX_REPLY_LEN,
        None => false,
    }
}
