//! The bytes of a frame.
ghost use Rattle.std.specs.Prelude.{◌≡◌, ◌<◌, ◌++◌, ◌∷◌, [], OnOk, OnErr, length};
ghost use Rattle.vx_data.specs.BodyText.{body_text, quoted};
ghost use Rattle.vx_data.specs.Tree.{object, no_members};
ghost use Rattle.vx_frame_write.specs.Outgoing.{frame_json, frame_text};
ghost use Rattle.vx_frame_write.specs.Outgoing as outgoing;
ghost use Rattle.vx_frame_write.specs.Written.{opened, more_members, numbered_reply};
ghost use Rattle.vx_message.specs.Framing.{prefix, framed};

use crate::headers::append_headers;
use itoa::Buffer;
use std::alloc::Global;
use vx_data::{MessageId, NoMemory, Text};
use vx_json::{write_body, write_text};
use vx_message::{Failure, FailureKind, FrameMessage, OutFrame};

/// Appends the frame: the length of its JSON in four bytes, big-endian, and its JSON. `NoMemory` leaves the list as it was.
pub fn write_frame(alloc: Global, frame: &OutFrame, into: &mut Vec<u8>) -> Result<(), NoMemory>
    // The JSON of a message of the event bus has fewer bytes by far.
    requires { length (frame_json frame.now) < 4194304 }
    ensures written { OnOk result (into.new.items ≡ into.old.items ++ frame_text frame.now) }
    ensures unchanged { OnErr result (into.new.items ≡ into.old.items) }
{
    let mut json = Vec::new(alloc);
    write_json(alloc, frame, &mut json)?;
    append_framed(&json, into)
}

/// Appends the JSON of the frame, with no length before it. `NoMemory` may leave a front of it.
pub fn write_json(alloc: Global, frame: &OutFrame, into: &mut Vec<u8>) -> Result<(), NoMemory>
    ensures { OnOk result (into.new.items ≡ into.old.items ++ frame_json frame.now) }
{
    match frame {
        OutFrame::Pong => append(b"{\"type\":\"pong\"}", into),
        OutFrame::Err(text) => append_error(text, into),
        OutFrame::Message {
            message,
            reply,
            publish,
        } => {
            append_message(alloc, message, *reply, into)?;
            append_send(*publish, into)
        }
        OutFrame::Reply { message, again } => {
            append_message(alloc, message, *again, into)?;
            append(b",\"type\":\"message\"}", into)
        }
        OutFrame::Failed { address, failure } => append_failure(address, failure, into),
    }
}

/// Appends the length of the JSON, and the JSON. `NoMemory` leaves the list as it was.
fn append_framed(json: &[u8], into: &mut Vec<u8>) -> Result<(), NoMemory>
    requires { length json.now < 4194304 }
    ensures written { OnOk result (into.new.items ≡ into.old.items ++ framed json.now) }
    ensures unchanged { OnErr result (into.new.items ≡ into.old.items) }
{
    let front = into.len();
    into.extend_from_slice(&prefix_of(json.len() as u32))?;
    match into.extend_from_slice(json) {
        Ok(()) => Ok(()),
        Err(_) => {
            into.truncate(front);
            Err(NoMemory)
        }
    }
}

/// The four bytes of a length, the highest first.
#[tactic(auto, unfolding(vx_message::specs::Framing::prefix))]
fn prefix_of(len: u32) -> [u8; 4]
    ensures { result ≡ prefix len }
{
    len.to_be_bytes()
}

fn append_error(text: &Text, into: &mut Vec<u8>) -> Result<(), NoMemory>
    ensures { OnOk result (into.new.items ≡ into.old.items ++ body_text (object (outgoing.error_members text.now))) }
{
    append(b"{\"message\":", into)?;
    write_text(text, into)?;
    append(b",\"type\":\"err\"}", into)
}

/// The fields that a message and a reply share, from the brace on.
fn append_message(
    alloc: Global,
    message: &FrameMessage,
    reply: Option<MessageId>,
    into: &mut Vec<u8>,
) -> Result<(), NoMemory>
    ensures { OnOk result (into.new.items ≡ into.old.items ++ opened (outgoing.message_members message.now reply no_members)) }
{
    append(b"{\"address\":", into)?;
    write_text(&message.address, into)?;
    append(b",\"body\":", into)?;
    write_body(&message.body, into)?;
    append_headers(alloc, &message.headers, into)?;
    append_reply(reply, into)
}

/// The address of a reply, where there is to be one, with a comma before it.
fn append_reply(reply: Option<MessageId>, into: &mut Vec<u8>) -> Result<(), NoMemory>
    ensures { OnOk result (into.new.items ≡ into.old.items ++ more_members (outgoing.with_reply reply no_members)) }
{
    match reply {
        Some(id) => append_reply_address(id.0.0, into),
        None => Ok(()),
    }
}

fn append_reply_address(number: u64, into: &mut Vec<u8>) -> Result<(), NoMemory>
    ensures { OnOk result (into.new.items ≡ into.old.items ++ numbered_reply number) }
{
    append(b",\"replyAddress\":\"__vertx.reply.", into)?;
    append(Buffer::new().format(number).as_bytes(), into)?;
    append(b"\"", into)
}

/// Whether a message was sent or published, its type, and the closing brace.
fn append_send(publish: bool, into: &mut Vec<u8>) -> Result<(), NoMemory>
    ensures { OnOk result (into.new.items ≡ into.old.items ++ (more_members (outgoing.send_members publish) ++ 125 ∷ [])) }
{
    if publish {
        append(b",\"send\":false,\"type\":\"message\"}", into)
    } else {
        append(b",\"send\":true,\"type\":\"message\"}", into)
    }
}

fn append_failure(address: &Text, failure: &Failure, into: &mut Vec<u8>) -> Result<(), NoMemory>
    ensures { OnOk result (into.new.items ≡ into.old.items ++ body_text (object (outgoing.failure_members address.now failure.now))) }
{
    let code = failure.code;
    append(b"{\"address\":", into)?;
    write_text(address, into)?;
    append(b",\"failureCode\":", into)?;
    append(Buffer::new().format(code).as_bytes(), into)?;
    append(b",\"failureType\":", into)?;
    append(kind_text(failure.kind), into)?;
    append(b",\"message\":", into)?;
    write_text(&failure.text, into)?;
    append(b",\"type\":\"err\"}", into)
}

/// The name of a kind of failure, in quotes.
#[tactic(auto, unfolding(vx_data::specs::BodyText::escaped))]
fn kind_text(kind: FailureKind) -> &'static [u8]
    ensures { result.now ≡ quoted (outgoing.kind_text kind) }
{
    match kind {
        FailureKind::Timeout => b"\"TIMEOUT\"",
        FailureKind::NoHandlers => b"\"NO_HANDLERS\"",
        FailureKind::RecipientFailure => b"\"RECIPIENT_FAILURE\"",
    }
}

pub(crate) fn append(bytes: &[u8], into: &mut Vec<u8>) -> Result<(), NoMemory>
    ensures { OnOk result (into.new.items ≡ into.old.items ++ bytes.now) }
{
    Ok(into.extend_from_slice(bytes)?)
}
