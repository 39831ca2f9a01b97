//! The calls that a handler has made for it.
ghost use Rattle.std.specs.Prelude.{◌≡◌, IsTrue, true};
ghost use Rattle.vx_call.specs.Plain.{is_plain};
ghost use Rattle.vx_verticle.specs.Calls.{call_of, is_message_act, is_bus_act, is_life_act};

use vx_call::Call;
use vx_data::{
    Body, ConsumerId, ContextId, DeploymentId, List, MessageId, PromiseId, RuleId, Text, TimerId,
};
use vx_message::{CodecForm, Compose, Condition, DoneResult, Options, Side, Verdict};

/// A call that a handler has made for it as it returns. Where the call names a context, that is the handler's own.
pub enum PlainAct {
    /// Asks a deployment, and all below it, to end. Where `tell` is true the handler's context is told that it is gone.
    Undeploy {
        deployment: DeploymentId,
        tell: bool,
    },
    /// Ends the start of the handler's verticle.
    StartDone(DoneResult),
    /// Ends the stop of the handler's verticle.
    StopDone,
    Register {
        address: Text,
        limit: u32,
    },
    Unregister(ConsumerId),
    Pause(ConsumerId),
    Resume(ConsumerId),
    Fetch(ConsumerId, u32),
    Send {
        address: Text,
        body: Body,
        options: Options,
    },
    Publish {
        address: Text,
        body: Body,
        options: Options,
    },
    Request {
        address: Text,
        body: Body,
        options: Options,
        timeout: u64,
    },
    Reply {
        message: MessageId,
        body: Body,
        options: Options,
    },
    Fail {
        message: MessageId,
        code: i32,
        text: Text,
    },
    ReplyRequest {
        message: MessageId,
        body: Body,
        options: Options,
        timeout: u64,
    },
    SetTimer {
        delay: u64,
        periodic: bool,
    },
    CancelTimer(TimerId),
    NewPromise,
    Complete(PromiseId, i64),
    FailPromise(PromiseId, i32),
    Compose(Compose, List<PromiseId>),
    Await(PromiseId),
    AddCodec {
        name: Text,
        form: CodecForm,
    },
    RemoveCodec(Text),
    AddRule {
        side: Side,
        condition: Condition,
        verdict: Verdict,
    },
    RemoveRule(RuleId),
    Listen {
        host: Text,
        port: u16,
    },
}

/// Written by hand, so that a function that lets go of an act has no case for each kind of act.
impl Drop for PlainAct {
    fn drop(self) {
        match self {
            PlainAct::Undeploy {
                deployment: _,
                tell: _,
            } => {}
            PlainAct::StartDone(_) => {}
            PlainAct::StopDone => {}
            PlainAct::Register {
                address: _,
                limit: _,
            } => {}
            PlainAct::Unregister(_) => {}
            PlainAct::Pause(_) => {}
            PlainAct::Resume(_) => {}
            PlainAct::Fetch(_, _) => {}
            PlainAct::Send {
                address: _,
                body: _,
                options: _,
            } => {}
            PlainAct::Publish {
                address: _,
                body: _,
                options: _,
            } => {}
            PlainAct::Request {
                address: _,
                body: _,
                options: _,
                timeout: _,
            } => {}
            PlainAct::Reply {
                message: _,
                body: _,
                options: _,
            } => {}
            PlainAct::Fail {
                message: _,
                code: _,
                text: _,
            } => {}
            PlainAct::ReplyRequest {
                message: _,
                body: _,
                options: _,
                timeout: _,
            } => {}
            PlainAct::SetTimer {
                delay: _,
                periodic: _,
            } => {}
            PlainAct::CancelTimer(_) => {}
            PlainAct::NewPromise => {}
            PlainAct::Complete(_, _) => {}
            PlainAct::FailPromise(_, _) => {}
            PlainAct::Compose(_, _) => {}
            PlainAct::Await(_) => {}
            PlainAct::AddCodec { name: _, form: _ } => {}
            PlainAct::RemoveCodec(_) => {}
            PlainAct::AddRule {
                side: _,
                condition: _,
                verdict: _,
            } => {}
            PlainAct::RemoveRule(_) => {}
            PlainAct::Listen { host: _, port: _ } => {}
        }
    }
}

impl PlainAct {
    /// The call that the act comes to. Where it names a context, that is this one, the handler's own. It is one that
    /// nothing goes along with.
    pub fn into_call(self, context: ContextId) -> Call
        ensures call { result ≡ call_of context self }
        ensures plain { is_plain result ≡ true }
    {
        if is_message_act(&self) {
            self.into_message_call(context)
        } else if is_bus_act(&self) {
            self.into_bus_call(context)
        } else {
            self.into_life_call(context)
        }
    }

    fn into_message_call(self, context: ContextId) -> Call
        requires { IsTrue (is_message_act self) }
        ensures call { result ≡ call_of context self }
        ensures plain { is_plain result ≡ true }
    {
        match self {
            PlainAct::Send {
                address,
                body,
                options,
            } => Call::Send {
                address,
                body,
                options,
            },
            PlainAct::Publish {
                address,
                body,
                options,
            } => Call::Publish {
                address,
                body,
                options,
            },
            PlainAct::Request {
                address,
                body,
                options,
                timeout,
            } => Call::Request {
                context,
                address,
                body,
                options,
                timeout,
                once: None,
            },
            PlainAct::Reply {
                message,
                body,
                options,
            } => Call::Reply {
                message,
                body,
                options,
            },
            PlainAct::Fail {
                message,
                code,
                text,
            } => Call::Fail {
                message,
                code,
                text,
            },
            PlainAct::ReplyRequest {
                message,
                body,
                options,
                timeout,
            } => Call::ReplyRequest {
                message,
                context,
                body,
                options,
                timeout,
            },
            _ => unreachable!(),
        }
    }

    fn into_bus_call(self, context: ContextId) -> Call
        requires { IsTrue (is_bus_act self) }
        ensures call { result ≡ call_of context self }
        ensures plain { is_plain result ≡ true }
    {
        match self {
            PlainAct::Register { address, limit } => Call::Register {
                context,
                address,
                limit,
            },
            PlainAct::Unregister(consumer) => Call::Unregister(consumer),
            PlainAct::Pause(consumer) => Call::Pause(consumer),
            PlainAct::Resume(consumer) => Call::Resume(consumer),
            PlainAct::Fetch(consumer, count) => Call::Fetch(consumer, count),
            PlainAct::AddCodec { name, form } => Call::AddCodec { name, form },
            PlainAct::RemoveCodec(name) => Call::RemoveCodec(name),
            PlainAct::AddRule {
                side,
                condition,
                verdict,
            } => Call::AddRule {
                side,
                condition,
                verdict,
            },
            PlainAct::RemoveRule(rule) => Call::RemoveRule(rule),
            PlainAct::Listen { host, port } => Call::Listen {
                context,
                host,
                port,
            },
            _ => unreachable!(),
        }
    }

    fn into_life_call(self, context: ContextId) -> Call
        requires { IsTrue (is_life_act self) }
        ensures call { result ≡ call_of context self }
        ensures plain { is_plain result ≡ true }
    {
        match self {
            PlainAct::Undeploy { deployment, tell } => Call::Undeploy {
                deployment,
                tell: tell.then_some(context),
            },
            PlainAct::StartDone(ended) => Call::StartDone(ended),
            PlainAct::StopDone => Call::StopDone,
            PlainAct::SetTimer { delay, periodic } => Call::SetTimer {
                context,
                delay,
                periodic,
            },
            PlainAct::CancelTimer(timer) => Call::CancelTimer(timer),
            PlainAct::NewPromise => Call::NewPromise,
            PlainAct::Complete(promise, value) => Call::Complete(promise, value),
            PlainAct::FailPromise(promise, code) => Call::FailPromise(promise, code),
            PlainAct::Compose(kind, parts) => Call::Compose(kind, parts),
            PlainAct::Await(promise) => Call::Await { context, promise },
            _ => unreachable!(),
        }
    }
}

// Whether the act sends a message or settles one.
fn is_message_act(act: &PlainAct) -> bool
    ensures { result ≡ is_message_act act.now }
{
    matches!(
        act,
        PlainAct::Send { .. }
            | PlainAct::Publish { .. }
            | PlainAct::Request { .. }
            | PlainAct::Reply { .. }
            | PlainAct::Fail { .. }
            | PlainAct::ReplyRequest { .. }
    )
}

// Whether the act is one on consumers, codecs, rules or servers.
fn is_bus_act(act: &PlainAct) -> bool
    ensures { result ≡ is_bus_act act.now }
{
    matches!(
        act,
        PlainAct::Register { .. }
            | PlainAct::Unregister(_)
            | PlainAct::Pause(_)
            | PlainAct::Resume(_)
            | PlainAct::Fetch(_, _)
            | PlainAct::AddCodec { .. }
            | PlainAct::RemoveCodec(_)
            | PlainAct::AddRule { .. }
            | PlainAct::RemoveRule(_)
            | PlainAct::Listen { .. }
    )
}
