//! What travels on the event bus, and the plain data that several stores name.
#![tactic(auto)]

mod frame;
mod kind;
mod rules;

pub use frame::{FrameMessage, InFrame, OutFrame, Permits};
pub use kind::KindSpec;
pub use rules::{Codec, CodecForm, Condition, MAX_ADDED_BYTES, MAX_RULES, Rule, Side, Verdict};
use std::alloc::Global;
use vx_data::{
    Body, ConnId, ConsumerId, ContextId, DeploymentId, EntryNo, Headers, MessageId, PassNo, PoolId,
    QueuedId, Text, TimerId,
};

/// What goes with a message or a reply. (Vert.x core API, `DeliveryOptions`.)
pub struct Options {
    pub headers: Headers,
    /// The name of the codec that the body goes through. Without one the body is copied as it is.
    pub codec: Option<Text>,
}

impl Drop for Options {
    fn drop(self) {
        let Options {
            headers: _,
            codec: _,
        } = self;
    }
}

impl Options {
    ghost use Rattle.std.specs.Prelude.{◌≡◌, [], None};

    /// No headers, and no codec. The list of headers keeps the allocator.
    pub fn none(alloc: Global) -> Options
        ensures headers { result.headers ≡ [] }
        ensures codec { result.codec ≡ None }
    {
        Options {
            headers: Headers::empty(alloc),
            codec: None,
        }
    }
}

/// A message, as a consumer gets it.
pub struct Message {
    pub id: MessageId,
    pub address: Text,
    pub headers: Headers,
    pub body: Body,
    /// Whether its sender waits for a reply.
    pub request: bool,
    /// Whether it was published, to all consumers at its address.
    pub publish: bool,
}

impl Message {
    ghost use Rattle.std.specs.Prelude.{◌≡◌};

    /// The message with these headers in place of its own.
    pub fn with_headers(self, headers: Headers) -> Message
        ensures { result ≡ record self { headers = headers } }
    {
        let Message {
            id,
            address,
            headers: _,
            body,
            request,
            publish,
        } = self;
        Message {
            id,
            address,
            headers,
            body,
            request,
            publish,
        }
    }
}

impl Drop for Message {
    fn drop(self) {
        let Message {
            id: _,
            address: _,
            headers: _,
            body: _,
            request: _,
            publish: _,
        } = self;
    }
}

/// How a request failed. (Vert.x core API, `ReplyFailure`.)
#[derive(Clone, Copy, Debug, PartialEq, Eq)]
pub enum FailureKind {
    /// Its time was up before a reply came.
    Timeout,
    /// Nobody was there who could reply, or the one who could is gone.
    NoHandlers,
    /// Its receiver failed it.
    RecipientFailure,
}

/// The failure of a request. (Vert.x core API, `ReplyException`.)
#[derive(Drop)]
pub struct Failure {
    pub kind: FailureKind,
    pub code: i32,
    pub text: Text,
}

/// How a request ended. (Vert.x core manual, "Acknowledging messages / sending replies".)
pub enum Outcome {
    /// A reply. Where `again` names a message, the asker may reply to it in its turn.
    Ok {
        headers: Headers,
        body: Body,
        again: Option<MessageId>,
    },
    Failed(Failure),
}

impl Drop for Outcome {
    fn drop(self) {
        match self {
            Outcome::Ok {
                headers: _,
                body: _,
                again: _,
            } => {}
            Outcome::Failed(_) => {}
        }
    }
}

/// Whom a thing belongs to.
#[derive(Clone, Copy, Debug, PartialEq, Eq)]
pub enum Owner {
    Pass(PassNo),
    Context(ContextId),
    Conn(ConnId),
}

/// Where a task is taken from.
#[derive(Clone, Copy, PartialEq, Eq)]
pub enum Lane {
    /// The event loop of this number.
    Loop(u8),
    /// The worker pool that has no name.
    Pool,
    /// A worker pool that was added under a name.
    Named(PoolId),
    /// The lane of an outside context, from which the context's maker takes.
    Own(ContextId),
}

/// A context: whom it belongs to, and where its tasks are taken from.
#[derive(Clone, Copy, PartialEq, Eq)]
pub struct Context {
    pub id: ContextId,
    /// The pass that made it, where it is an outside one. The others are those of verticles.
    pub maker: Option<PassNo>,
    /// The lane of its handlers' tasks.
    pub lane: Lane,
    /// The lane of its blocking code.
    pub jobs: Lane,
}

/// A named worker pool: at most `size` tasks of it run at once.
#[derive(Drop)]
pub struct Pool {
    pub id: PoolId,
    pub name: Text,
    pub size: u32,
}

/// How blocking code ended. (Vert.x core manual, "Running blocking code".)
#[derive(Clone, Copy, PartialEq, Eq)]
pub enum JobResult {
    Value(i64),
    Fail(i32),
    NoMemory,
}

/// How the parts of a composite promise settle it. (Vert.x core manual, "Future coordination".)
#[derive(Clone, Copy, PartialEq, Eq)]
pub enum Compose {
    /// It succeeds once all parts have, and fails with the first that does.
    All,
    /// It succeeds with the first part that does, and fails once all have.
    Any,
    /// It is settled once all parts are, and fails if one did.
    Join,
}

/// How a start, or a deployment, ended. (Vert.x core manual, "Asynchronous Verticle start and stop".)
#[derive(Clone, Copy, PartialEq, Eq)]
pub enum DoneResult {
    Ok,
    Fail(i32),
    NoMemory,
}

/// What a task keeps from running beside it.
#[derive(Clone, Copy, PartialEq, Eq)]
pub enum Mode {
    /// A handler: no other handler of its context.
    Handler,
    /// Blocking code that goes in turn: no other such code of its context.
    Ordered,
    /// Blocking code that runs beside all else.
    Free,
}

/// What kind of task an item is, by ids alone: who made the item keeps the rest of its task.
#[derive(Clone, Copy, PartialEq, Eq)]
pub enum ItemKind {
    /// The start of a verticle.
    Start(ContextId),
    /// A message for a consumer.
    Deliver(ConsumerId, MessageId),
    /// The outcome of a request.
    Outcome(MessageId),
    /// A timer's time has come.
    Fire(TimerId),
    /// Code for a context.
    Run(QueuedId),
    /// Blocking code.
    Job(QueuedId),
    /// The result of blocking code.
    JobDone(QueuedId),
    /// A connection of a shared server, by the entry that accepted it.
    Connected(EntryNo),
    /// The end of a promise, by the work that awaits it.
    PromiseEnd(QueuedId),
    /// The end of deploying.
    DeployEnd(DeploymentId),
    /// The end of undeploying.
    UndeployEnd(DeploymentId),
    /// The stop of a verticle.
    Stop(ContextId),
}

/// A task that waits: the entry that made it ready, its place among the items of that entry, and the context that it is of.
#[derive(Clone, Copy, PartialEq, Eq)]
pub struct Item {
    pub entry: EntryNo,
    pub place: u64,
    pub context: ContextId,
    pub lane: Lane,
    pub mode: Mode,
    pub kind: ItemKind,
}

/// A task that a pass took and did not finish yet: the entry of the Take, the lane that it took from, and the context
/// that the task is of.
#[derive(Clone, Copy, PartialEq, Eq)]
pub struct Held {
    pub pass: PassNo,
    pub at: EntryNo,
    pub lane: Lane,
    pub context: Option<ContextId>,
    pub mode: Mode,
    pub kind: ItemKind,
}

/// A message that a Take gave out: the context whose handler got it, and whether its sender waits for a reply.
#[derive(Clone, Copy, PartialEq, Eq)]
pub struct Given {
    pub id: MessageId,
    pub receiver: Option<ContextId>,
    pub request: bool,
}
