ghost use Rattle.std.specs.Prelude.{◌≡◌};
ghost use Rattle.vx_call.specs.Plain.{is_plain};
ghost use Rattle.vx_call.specs.Built.{is_stored, hands_over, is_of_connections};

use vx_data::{
    Body, ConnId, ConsumerId, ContextId, DeploymentId, List, MessageId, Moment, Numbers, PromiseId,
    RuleId, ServerId, Text, TimerId,
};
use vx_message::{
    CodecForm, Compose, Condition, DoneResult, InFrame, Lane, Options, Permits, Side, Verdict,
};

/// How a task ends.
#[derive(Clone, Copy, PartialEq, Eq)]
pub enum End {
    Done,
    /// A start or a stop is not over yet: a later handler of its context ends it.
    Later,
    /// With a value, where it is blocking code.
    Value(i64),
    Fail(i32),
    NoMemory,
}

/// What a pass asks of the hub.
#[derive(Drop)]
pub enum Call {
    /// Makes a pass.
    NewPass,
    /// Makes an outside context of this pass.
    NewContext,
    /// So many event loops, from 1 to 16, take turns in getting the standard verticles that are deployed from now on.
    SetLoops(u32),
    /// Adds a worker pool of 1 to 20 under a name of 1 to 1,024 bytes, which no pool has. There are at most eight.
    /// (`DeploymentOptions.setWorkerPoolName`.)
    AddPool {
        name: Text,
        size: u32,
    },
    /// Deploys 1 to 64 instances of a verticle, below the verticle whose handler makes the call. (`Vertx.deployVerticle`,
    /// `DeploymentOptions.setInstances`.)
    Deploy {
        worker: bool,
        pool: Option<Text>,
        tell: Option<ContextId>,
        count: u64,
    },
    /// Asks a deployment, and all below it, to end. (`Vertx.undeploy`.)
    Undeploy {
        deployment: DeploymentId,
        tell: Option<ContextId>,
    },
    /// Ends the start of the verticle whose handler makes the call. (`Verticle.start` with a promise.)
    StartDone(DoneResult),
    /// Ends the stop of the verticle whose handler makes the call. (`Verticle.stop` with a promise.)
    StopDone,
    /// Registers a consumer of a context at an address of 1 to 1,024 bytes. At most `limit` messages, from 1 to
    /// 100,000, are held for it as they arrive. (`MessageConsumer.setMaxBufferedMessages`.)
    Register {
        context: ContextId,
        address: Text,
        limit: u32,
    },
    /// Ends a consumer, and the messages that wait for it.
    Unregister(ConsumerId),
    /// Makes no more messages ready for a consumer, and holds again those that were not taken. (`MessageConsumer.pause`.)
    Pause(ConsumerId),
    /// Makes every message of a consumer ready, those that come later too. (`MessageConsumer.resume`.)
    Resume(ConsumerId),
    /// Makes so many more messages of a paused consumer ready, at least 1. (`MessageConsumer.fetch`.)
    Fetch(ConsumerId, u32),
    /// Sends a message to one of the consumers at an address of 1 to 1,024 bytes.
    Send {
        address: Text,
        body: Body,
        options: Options,
    },
    /// Sends a message to all consumers at an address of 1 to 1,024 bytes.
    Publish {
        address: Text,
        body: Body,
        options: Options,
    },
    /// Sends a message to one of the consumers at an address of 1 to 1,024 bytes. The context gets the reply, or learns
    /// that none came in time, from 1 to 1,000,000,000,000 ms. A handler that is called once may go with it.
    Request {
        context: ContextId,
        address: Text,
        body: Body,
        options: Options,
        timeout: u64,
        once: Option<Numbers>,
    },
    /// Replies to a request that this pass's context was given.
    Reply {
        message: MessageId,
        body: Body,
        options: Options,
    },
    /// Fails a request that this pass's context was given, with a text of at most 65,536 bytes.
    Fail {
        message: MessageId,
        code: i32,
        text: Text,
    },
    /// Replies to a request, and asks for a reply to this reply in its turn, as a Request does.
    ReplyRequest {
        message: MessageId,
        context: ContextId,
        body: Body,
        options: Options,
        timeout: u64,
    },
    /// Sets a timer of 1 to 1,000,000,000,000 ms, which fires once or again and again. (`Vertx.setTimer`, `setPeriodic`.)
    SetTimer {
        context: ContextId,
        delay: u64,
        periodic: bool,
    },
    /// Cancels a timer, and its fire that waits. (`Vertx.cancelTimer`.)
    CancelTimer(TimerId),
    /// Hands code to a context. (`Context.runOnContext`.)
    RunOn {
        context: ContextId,
        once: Option<Numbers>,
    },
    /// Hands blocking code to the workers. Ordered code of one context runs one after another. (`Context.executeBlocking`.)
    Blocking {
        context: ContextId,
        ordered: bool,
        once: Option<Numbers>,
    },
    /// Makes a promise. (`Promise.promise`.)
    NewPromise,
    /// Settles a promise with a value. (`Promise.complete`.)
    Complete(PromiseId, i64),
    /// Settles a promise with a failure. (`Promise.fail`.)
    FailPromise(PromiseId, i32),
    /// Makes a promise that 1 to 64 others settle, the parts. One may come several times. (`CompositeFuture.all`, `any` and
    /// `join`.)
    Compose(Compose, List<PromiseId>),
    /// Tells a context how a promise ends. (`Future.onComplete`.)
    Await {
        context: ContextId,
        promise: PromiseId,
    },
    /// Adds a codec under a name of 1 to 1,024 bytes, which no codec has. Its form names at most 64 keys, of at most 1,024
    /// bytes each. (`EventBus.registerCodec`.)
    AddCodec {
        name: Text,
        form: CodecForm,
    },
    /// Removes a codec. (`EventBus.unregisterCodec`.)
    RemoveCodec(Text),
    /// Adds a rule for the messages that pass one way. The name and the value that it adds have together at most 1,024
    /// bytes. (`EventBus.addInboundInterceptor` and `addOutboundInterceptor`.)
    AddRule {
        side: Side,
        condition: Condition,
        verdict: Verdict,
    },
    /// Removes a rule. (`EventBus.removeInboundInterceptor` and `removeOutboundInterceptor`.)
    RemoveRule(RuleId),
    /// Opens a server of a context at a host of 1 to 1,024 bytes and a port from 1 on. Servers at one host and port share
    /// the connections. (`NetServer.listen`.)
    Listen {
        context: ContextId,
        host: Text,
        port: u16,
    },
    /// A connection came in where this server listens.
    Accepted(ServerId),
    /// Tells the time, in ms. Requests whose time is up by now fail, and timers that are due fire. The time never goes back.
    Advance(Moment),
    /// Opens a connection of the bridge, whose other side may use these addresses: at most 256 each way, of 1 to 1,024 bytes.
    OpenConn(Permits),
    /// A frame that came in on a connection.
    FrameIn(ConnId, InFrame),
    /// Takes the next frame that goes out on a connection.
    TakeOut(ConnId),
    /// Closes a connection.
    CloseConn(ConnId),
    /// Takes the next task of a lane.
    Take(Lane),
    /// Ends the task that the pass holds.
    Finish(End),
    /// Closes the hub, where no deployment is left, with all contexts and connections. (`Vertx.close`.)
    Close,
}

impl Call {
    /// Whether the call hands nothing out of the hub and nothing to it: it is no Deploy, no Take, no Finish, and has no
    /// handler that is called once.
    pub fn plain(&self) -> bool
        ensures { result ≡ is_plain self.now }
    {
        !matches!(
            self,
            Call::Deploy { .. }
                | Call::Take(_)
                | Call::Finish(_)
                | Call::Request { once: Some(_), .. }
                | Call::RunOn { once: Some(_), .. }
                | Call::Blocking { once: Some(_), .. }
        )
    }

    /// Whether the hub makes the call so far: one of the event bus, of contexts, passes, the time and verticles. Each other
    /// one is defined, and the hub has no body for it yet.
    pub fn is_built(&self) -> bool
        ensures { result ≡ is_stored self.now }
    {
        !hands_over(self) && !is_of_connections(self)
    }

    /// Lets go of the call. All forms of calls are gone through here alone, so that the check does so once.
    pub fn let_go(self) {}
}

// Whether the call hands something to a context for later: a handler that is called once, a timer, code, or how a promise
// ends.
fn hands_over(call: &Call) -> bool
    ensures { result ≡ hands_over call.now }
{
    matches!(
        call,
        Call::Request { once: Some(_), .. }
            | Call::SetTimer { .. }
            | Call::CancelTimer(_)
            | Call::RunOn { .. }
            | Call::Blocking { .. }
            | Call::NewPromise
            | Call::Complete(_, _)
            | Call::FailPromise(_, _)
            | Call::Compose(_, _)
            | Call::Await { .. }
    )
}

// Whether the call is of a server or a connection.
fn is_of_connections(call: &Call) -> bool
    ensures { result ≡ is_of_connections call.now }
{
    matches!(
        call,
        Call::Listen { .. }
            | Call::Accepted(_)
            | Call::OpenConn(_)
            | Call::FrameIn(_, _)
            | Call::TakeOut(_)
            | Call::CloseConn(_)
    )
}
