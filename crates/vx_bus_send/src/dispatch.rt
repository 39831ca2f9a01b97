ghost use Rattle.std.specs.Prelude.{◌≡◌, ◌<◌, ◌≤◌, ◌^◌, List, true, IsTrue, IfOk, IfErr, IsOk, OnErr};
ghost use Rattle.vx_call.specs.declared.history.Traced.{Traced};
ghost use Rattle.vx_call.specs.Plain.{takes_no_memory};
ghost use Rattle.vx_bus_store.specs.Stands.{StoresStand, Follows, HavePlaces, AreOfOneHistory, IsAt};
ghost use Rattle.vx_bus_send.specs.Calls.{is_sending_call};

use crate::fail::fail;
use crate::publish::publish;
use crate::reply::reply;
use crate::reply_request::reply_request;
use crate::request::request;
use crate::send::send;
use vx_bus_store::Bus;
use vx_call::{Call, Reply, Unmade};
use vx_context::Contexts;
use vx_data::{EntryNo, PassNo};
use vx_timer::Timers;

/// Whether the call is Send, Publish, Request without a handler that is called once, Reply, Fail or ReplyRequest.
pub fn is_sending_call(call: &Call) -> bool
    ensures { result ≡ is_sending_call call.now }
{
    matches!(
        call,
        Call::Send { .. }
            | Call::Publish { .. }
            | Call::Request { once: None, .. }
            | Call::Reply { .. }
            | Call::Fail { .. }
            | Call::ReplyRequest { .. }
    )
}

/// Makes a call that sends, as the entry of this number, at this moment in ms.
pub fn step(
    contexts: &mut Contexts,
    timers: &mut Timers,
    bus: &mut Bus,
    at: EntryNo,
    now: u64,
    pass: PassNo,
    call: Call,
) -> Result<Reply, Unmade>
    requires small { at.0 < 2 ^ 48 }
    requires early { now ≤ 2 ^ 62 }
    requires own { IsTrue (is_sending_call call) }
    requires places { HavePlaces contexts.old bus.old }
    requires one { AreOfOneHistory contexts.old timers.old bus.old }
    ensures ok { IfOk result (λ reply. (history : List Traced) → StoresStand contexts.old timers.old bus.old history → IsAt at now history → Follows contexts.new timers.new bus.new history pass call reply) }
    ensures err { OnErr result ((history : List Traced) → StoresStand contexts.old timers.old bus.old history → StoresStand contexts.new timers.new bus.new history) }
    ensures back { IfErr result (λ unmade. unmade.call ≡ call) }
    ensures sure { takes_no_memory call ≡ true → IsOk result }
    ensures places { HavePlaces contexts.new bus.new }
    ensures owed { contexts.new.owed ≡ contexts.old.owed }
{
    match call {
        Call::Send {
            address,
            body,
            options,
        } => send(contexts, timers, bus, at, pass, address, body, options),
        Call::Publish {
            address,
            body,
            options,
        } => publish(contexts, timers, bus, at, pass, address, body, options),
        Call::Request {
            context,
            address,
            body,
            options,
            timeout,
            once: None,
        } => request(
            contexts, timers, bus, at, now, pass, context, address, body, options, timeout,
        ),
        Call::Reply {
            message,
            body,
            options,
        } => reply(contexts, timers, bus, at, pass, message, body, options),
        Call::Fail {
            message,
            code,
            text,
        } => Ok(fail(contexts, timers, bus, at, pass, message, code, text)),
        Call::ReplyRequest {
            message,
            context,
            body,
            options,
            timeout,
        } => reply_request(
            contexts, timers, bus, at, now, pass, message, context, body, options, timeout,
        ),
        _ => unreachable!(),
    }
}
