ghost use Rattle.std.specs.Prelude.{◌≡◌};
ghost use Rattle.vx_call.specs.Kinds.{task_of};

use vx_data::{
    CodecId, ConnId, ConsumerId, ContextId, DeploymentId, EntryNo, List, MessageId, PassNo, PoolId,
    PromiseId, QueuedId, RuleId, ServerId, TimerId,
};
use vx_message::{DoneResult, JobResult, Message, OutFrame, Outcome, Owner};

/// What a message reached.
#[derive(Clone, Copy, Debug, PartialEq, Eq)]
pub enum To {
    /// No consumer is at the address.
    None,
    /// A rule stopped the message.
    Stopped,
    /// The buffer of this consumer is full.
    Lost(ConsumerId),
    Consumer(ConsumerId),
    /// The context that waits for a reply.
    Asker,
}

/// What a handler is called for.
#[derive(Drop)]
pub enum Task {
    /// A verticle starts.
    Start(ContextId),
    Deliver {
        consumer: ConsumerId,
        message: Message,
    },
    /// A request of the context has ended.
    Outcome {
        request: MessageId,
        outcome: Outcome,
    },
    /// A timer's time has come.
    Fire(TimerId),
    /// Code that was handed to the context.
    Run(QueuedId),
    /// Blocking code.
    Job(QueuedId),
    /// Blocking code that the context handed over has ended.
    JobDone {
        queued: QueuedId,
        result: JobResult,
    },
    /// The server got the connection that came in with this entry.
    Connected(ServerId, EntryNo),
    /// A promise that the context awaits has ended.
    PromiseEnd {
        awaited: QueuedId,
        promise: PromiseId,
        result: JobResult,
    },
    /// The starts of a deployment have ended, or it is gone since one of them failed.
    DeployEnd {
        deployment: DeploymentId,
        result: DoneResult,
    },
    /// A deployment is gone.
    UndeployEnd(DeploymentId),
    /// A verticle stops.
    Stop(ContextId),
}

/// Why a call changed nothing. Each but the last is an entry of the history all the same.
#[derive(Clone, Copy, Debug, PartialEq, Eq)]
pub enum Refusal {
    /// The named context is not there.
    NoContext,
    /// The context was closed by this entry.
    ContextClosed(EntryNo),
    /// The consumer is not there, or has ended.
    NoConsumer,
    /// The thing belongs to another, who is named.
    NotYours(Owner),
    /// The pass holds no task.
    NotHolding,
    /// The pass holds a task, which the Take of this entry gave it.
    Holding(EntryNo),
    /// This pass holds a task of the event loop.
    LaneHeld(PassNo),
    /// The lane is not there.
    NoLane,
    /// The address has no bytes, or more than 1,024.
    BadAddress,
    /// Something is larger than this limit: a failure's text (65,536 bytes); a body's JSON text (1,048,576 bytes) or its
    /// depth (100); the headers of a message (1,024 pairs, 65,536 bytes); the key names of a codec (64), one of them
    /// (1,024 bytes), or the codecs that are there (256); the name and value that a rule adds (1,024 bytes), or the rules
    /// of one side (64).
    TooLarge(u32),
    /// No Take gave the message out.
    NoMessage,
    /// The message's sender waits for no reply.
    NotRequest,
    /// The request has ended at this entry.
    Late(EntryNo),
    /// The deployment is not there, or is gone; or the context whose handler makes the call is no verticle's.
    NoDeployment,
    /// The deployment was asked to end at this entry.
    Stopping(EntryNo),
    /// The limit of a consumer is not from 1 to 100,000, no message is fetched, the loops are not 1 to 16, the instances
    /// not 1 to 64, a pool's size not 1 to 20, eight pools are there, a composite has not 1 to 64 parts, or a port is 0.
    BadCount,
    /// The delay or timeout is not from 1 to 1,000,000,000,000 ms.
    BadDelay,
    /// The timer is not there, or will fire no more.
    NoTimer,
    /// No codec has the name.
    NoCodec,
    /// A codec has the name, which this entry added.
    CodecTaken(EntryNo),
    /// The rule is not there.
    NoRule,
    /// The connection is not there.
    NoConnection,
    /// The connection was closed at this entry.
    ConnClosed(EntryNo),
    /// The promise is not there.
    NoPromise,
    /// The promise was settled by this entry.
    Settled(EntryNo),
    /// The server is not there, or its context is closed.
    NoServer,
    /// This is the first deployment that is not gone.
    StillDeployed(DeploymentId),
    /// The hub was closed by this entry.
    HostClosed(EntryNo),
    /// The start, or the stop, is not to be ended; or the promise is a composite, which its parts settle.
    NotPending,
    /// A pool has the name, which this entry added.
    PoolTaken(EntryNo),
    /// No pool has the name.
    NoPool,
    /// The history has 2^48 entries. This refusal adds none.
    Spent,
}

/// What a call is answered.
pub enum Reply {
    Pass(PassNo),
    Context(ContextId),
    Pool(PoolId),
    Deployment(DeploymentId),
    Consumer(ConsumerId),
    /// What the message reached.
    Sent(To),
    /// The consumers that accepted the message, in order of registration.
    Published(List<ConsumerId>),
    /// What the request reached.
    Asked(To),
    Timer(TimerId),
    Queued(QueuedId),
    Promise(PromiseId),
    Codec(CodecId),
    Rule(RuleId),
    Connection(ConnId),
    /// A frame that goes out.
    Frame(OutFrame),
    /// No frame waits on the connection.
    NoFrame,
    Server(ServerId),
    /// The server whose turn it is.
    Accepted(ServerId),
    Task(Task),
    /// The lane has no next task.
    Idle,
    /// The hub is closed.
    Stopped,
    Done,
    /// How many requests' time was up, and how many timers fired.
    Fired(u64),
    Refused(Refusal),
}

impl Reply {
    /// Lets go of the reply, as the end of its scope does.
    pub fn let_go(self) {}

    /// The task that the reply hands out, if it is one. Any other reply is let go of.
    pub fn into_task(self) -> Option<Task>
        ensures { result ≡ task_of self }
    {
        match self {
            Reply::Task(task) => Some(task),
            other => {
                other.let_go();
                None
            }
        }
    }
}

impl Drop for Reply {
    fn drop(self) {
        match self {
            Reply::Pass(_) => {}
            Reply::Context(_) => {}
            Reply::Pool(_) => {}
            Reply::Deployment(_) => {}
            Reply::Consumer(_) => {}
            Reply::Sent(_) => {}
            Reply::Published(_) => {}
            Reply::Asked(_) => {}
            Reply::Timer(_) => {}
            Reply::Queued(_) => {}
            Reply::Promise(_) => {}
            Reply::Codec(_) => {}
            Reply::Rule(_) => {}
            Reply::Connection(_) => {}
            Reply::Frame(_) => {}
            Reply::NoFrame => {}
            Reply::Server(_) => {}
            Reply::Accepted(_) => {}
            Reply::Task(_) => {}
            Reply::Idle => {}
            Reply::Stopped => {}
            Reply::Done => {}
            Reply::Fired(_) => {}
            Reply::Refused(_) => {}
        }
    }
}
