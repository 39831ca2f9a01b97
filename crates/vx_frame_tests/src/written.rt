//! The bytes of frames that go out.
#![tactic(auto, unfolding(vx_data::specs::BodyText::escaped))]

ghost use Rattle.std.specs.Prelude.{◌≡◌, ◌<◌, ◌++◌, ◌∷◌, [], length, OnOk};
ghost use Rattle.vx_frame_write.specs.Outgoing.{frame_json};

use std::alloc::Global;
use std::test::Fail;
use vx_data::{Body, EntryNo, Headers, MessageId, NoMemory, Text};
use vx_frame_write::write_frame;
use vx_message::{Failure, FailureKind, FrameMessage, OutFrame};

/// Whether the frame's bytes are appended, as they stand here.
fn is_written(alloc: Global, frame: &OutFrame, text: &[u8]) -> Result<bool, NoMemory>
    requires { length (frame_json frame.now) < 4194304 }
{
    let mut bytes = Vec::from_slice(alloc, b"before")?;
    write_frame(alloc, frame, &mut bytes)?;
    Ok(bytes.as_slice() == text)
}

fn message(address: &'static str, headers: Headers, body: Body) -> FrameMessage
    ensures { result ≡ record { address = address.now; headers = headers; body = body } }
{
    FrameMessage {
        address: Text::constant(address),
        headers,
        body,
    }
}

#[test]
fn errors_are_written(rt: HostRuntime) -> Result<(), Fail> {
    let pong = is_written(
        rt.alloc(),
        &OutFrame::Pong,
        b"before\x00\x00\x00\x0f{\"type\":\"pong\"}",
    )?;
    let unknown = is_written(
        rt.alloc(),
        &OutFrame::Err(Text::constant("unknown_type")),
        b"before\x00\x00\x00\x27{\"message\":\"unknown_type\",\"type\":\"err\"}",
    )?;
    assert!(rt; pong && unknown);
    Ok(())
}

#[test]
fn messages_are_written(rt: HostRuntime) -> Result<(), Fail> {
    let alloc = rt.alloc();
    let reply = OutFrame::Reply {
        message: message("r1", Headers::empty(alloc), Body::null()),
        again: None,
    };
    let reply = is_written(
        alloc,
        &reply,
        b"before\x00\x00\x00\x2d{\"address\":\"r1\",\"body\":null,\"type\":\"message\"}",
    )?;
    let news = OutFrame::Message {
        message: message("news", Headers::empty(alloc), Body::bool(true)),
        reply: None,
        publish: true,
    };
    let news = is_written(
        alloc,
        &news,
        b"before\x00\x00\x00\x3c{\"address\":\"news\",\"body\":true,\"send\":false,\"type\":\"message\"}",
    )?;
    assert!(rt; reply && news);
    Ok(())
}

#[test]
fn reply_addresses_are_written(rt: HostRuntime) -> Result<(), Fail> {
    let alloc = rt.alloc();
    let request = OutFrame::Message {
        message: message("a", Headers::empty(alloc), Body::int(1)),
        reply: Some(MessageId(EntryNo(7))),
        publish: false,
    };
    let request = is_written(
        alloc,
        &request,
        b"before\x00\x00\x00\x56{\"address\":\"a\",\"body\":1,\"replyAddress\":\"__vertx.reply.7\",\"send\":true,\"type\":\"message\"}",
    )?;
    let asks = OutFrame::Reply {
        message: message("r1", Headers::empty(alloc), Body::null()),
        again: Some(MessageId(EntryNo(12))),
    };
    let asks = is_written(
        alloc,
        &asks,
        b"before\x00\x00\x00\x4f{\"address\":\"r1\",\"body\":null,\"replyAddress\":\"__vertx.reply.12\",\"type\":\"message\"}",
    )?;
    assert!(rt; request && asks);
    Ok(())
}

#[test]
fn failures_are_written(rt: HostRuntime) -> Result<(), Fail> {
    let failed = OutFrame::Failed {
        address: Text::constant("r1"),
        failure: Failure {
            kind: FailureKind::RecipientFailure,
            code: 7,
            text: Text::constant("no \"x\""),
        },
    };
    let failed = is_written(
        rt.alloc(),
        &failed,
        b"before\x00\x00\x00\x64{\"address\":\"r1\",\"failureCode\":7,\"failureType\":\"RECIPIENT_FAILURE\",\"message\":\"no \\\"x\\\"\",\"type\":\"err\"}",
    )?;
    assert!(rt; failed);
    Ok(())
}

fn add(headers: &mut Headers, name: &'static str, value: &'static str) -> Result<(), NoMemory>
    ensures { OnOk result (headers.new ≡ headers.old ++ (name.now, value.now) ∷ []) }
{
    match headers.add(Text::constant(name), Text::constant(value)) {
        Ok(()) => Ok(()),
        Err(_) => Err(NoMemory),
    }
}

#[test]
fn headers_are_written(rt: HostRuntime) -> Result<(), Fail> {
    let mut headers = Headers::empty(rt.alloc());
    add(&mut headers, "k", "2")?;
    add(&mut headers, "h", "1")?;
    add(&mut headers, "k", "3")?;
    let news = OutFrame::Message {
        message: message("a", headers, Body::null()),
        reply: None,
        publish: true,
    };
    let news = is_written(
        rt.alloc(),
        &news,
        b"before\x00\x00\x00\x5b{\"address\":\"a\",\"body\":null,\"headers\":{\"h\":\"1\",\"k\":[\"2\",\"3\"]},\"send\":false,\"type\":\"message\"}",
    )?;
    assert!(rt; news);
    Ok(())
}
