//! Frames of the TCP EventBus bridge. (Vert.x TCP EventBus bridge manual, "Message format".)
use crate::Failure;
use vx_data::{Body, Headers, List, MessageId, Text};

/// The addresses that the other side of a connection may use. By default it may use none.
#[derive(Drop)]
pub struct Permits {
    /// Those that it may send and publish to.
    pub inbound: List<Text>,
    /// Those that it may register at.
    pub outbound: List<Text>,
}

/// The message that a frame carries.
pub struct FrameMessage {
    pub address: Text,
    pub headers: Headers,
    pub body: Body,
}

impl FrameMessage {
    ghost use Rattle.std.specs.Prelude.{◌≡◌};

    /// The address, the headers and the body.
    pub fn open(self) -> (Text, Headers, Body)
        ensures { result ≡ (self.address, self.headers, self.body) }
    {
        let FrameMessage {
            address,
            headers,
            body,
        } = self;
        (address, headers, body)
    }
}

/// Written by hand, so that a function that lets go of a frame has no case for each part of its message.
impl Drop for FrameMessage {
    fn drop(self) {
        let FrameMessage {
            address: _address,
            headers: _headers,
            body: _body,
        } = self;
    }
}

/// A frame that came in.
#[derive(Drop)]
pub enum InFrame {
    Ping,
    /// The type is missing, no text, or none of `ping`, `register`, `unregister`, `send` and `publish`.
    UnknownType,
    /// The address is missing, or no text.
    NoAddress,
    /// The body is deeper than 100, the headers have more than 1,024 pairs or 65,536 bytes, or the reply address has more
    /// than 1,024 bytes.
    Large,
    /// The bytes are no object of the JSON profile with nesting of at most 127.
    BadJson,
    /// The length, in bytes, is over 1,048,576.
    TooLong(u32),
    /// The address at which the other side wants to get messages.
    Register(Text),
    /// The address at which it wants to get none any more.
    Unregister(Text),
    Send {
        message: FrameMessage,
        /// Where the sender waits for a reply.
        reply: Option<Text>,
    },
    Publish(FrameMessage),
}

/// A frame that goes out.
#[derive(Drop)]
pub enum OutFrame {
    Pong,
    /// An error, with its text.
    Err(Text),
    /// A message for a consumer of the connection.
    Message {
        message: FrameMessage,
        /// The request to which the other side may reply, if it is one.
        reply: Option<MessageId>,
        publish: bool,
    },
    /// A reply to a request of the connection, at the address that its sender named.
    Reply {
        message: FrameMessage,
        /// The message to which the other side may reply in its turn, if it asks for a reply.
        again: Option<MessageId>,
    },
    /// A request of the connection failed. The address is the one that its sender named for the reply.
    Failed {
        address: Text,
        failure: Failure,
    },
}
