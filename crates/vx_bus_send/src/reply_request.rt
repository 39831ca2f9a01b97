ghost use Rattle.std.specs.Prelude.{◌≡◌, ◌<◌, ◌≤◌, ◌+◌, ◌^◌, List, None, Some, IfOk, IfErr, OnOk, OnErr};
ghost use Rattle.vx_data.specs.Bodies.{tree_depth};
ghost use Rattle.vx_message.specs.declared.Outcome.TheVariants as outcomes;
ghost use Rattle.vx_timer.specs.declared.timers.Timer.{Timer};
ghost use Rattle.vx_timer.specs.Order as timer_order;
ghost use Rattle.vx_bus_store.specs.Stores.{coded_in};
ghost use Rattle.vx_call.specs.declared.history.Traced.{Traced};
ghost use Rattle.vx_bus_store.specs.Stands.{StoresStand, Follows, HavePlaces, HaveRoom, AreOfOneHistory, IsAt};

use crate::request::prepare_request;
use vx_bus_delivery::{replied, settle};
use vx_bus_refusals::reply_request_refusal;
use vx_bus_store::Bus;
use vx_call::{Call, Options, Reply, To, Unmade};
use vx_context::Contexts;
use vx_data::{Body, ContextId, EntryNo, MessageId, NoMemory, PassNo};
use vx_message::{Outcome, Owner};
use vx_request::OpenRequest;
use vx_timer::Timers;

/// Replies to a request, and asks for a reply to this reply. `now` is the moment of the history, in ms.
pub fn reply_request(
    contexts: &mut Contexts,
    timers: &mut Timers,
    bus: &mut Bus,
    at: EntryNo,
    now: u64,
    pass: PassNo,
    message: MessageId,
    context: ContextId,
    body: Body,
    options: Options,
    timeout: u64,
) -> Result<Reply, Unmade>
    requires small { at.0 < 2 ^ 48 }
    requires early { now ≤ 2 ^ 62 }
    requires places { HavePlaces contexts.old bus.old }
    requires one { AreOfOneHistory contexts.old timers.old bus.old }
    ensures ok { IfOk result (λ reply. (history : List Traced) → StoresStand contexts.old timers.old bus.old history → IsAt at now history → Follows contexts.new timers.new bus.new history pass (Call.ReplyRequest message context body options timeout) reply) }
    ensures err { OnErr result ((history : List Traced) → StoresStand contexts.old timers.old bus.old history → StoresStand contexts.new timers.new bus.new history) }
    ensures back { IfErr result (λ unmade. unmade.call ≡ Call.ReplyRequest message context body options timeout) }
    ensures places { HavePlaces contexts.new bus.new }
    ensures owed { contexts.new.owed ≡ contexts.old.owed }
{
    if let Some(refusal) = reply_request_refusal(
        contexts, bus, pass, message, context, &body, &options, timeout,
    ) {
        return Ok(Reply::Refused(refusal));
    }
    let due = now + timeout;
    match prepare_reply(contexts, timers, bus, at, due, &body, &options) {
        Ok(outcome) => {
            let home = bus.asker(message);
            settle(contexts, timers, bus, at, message, outcome);
            bus.open(OpenRequest {
                id: MessageId(at),
                asker: Owner::Context(context),
                receiver: None,
                home,
            });
            Ok(Reply::Asked(To::Asker))
        }
        Err(NoMemory) => Err(Unmade {
            call: Call::ReplyRequest {
                message,
                context,
                body,
                options,
                timeout,
            },
        }),
    }
}

// Makes the outcome, which asks again, and room for the new request, and sets its timer. `due` is in ms.
fn prepare_reply(
    contexts: &mut Contexts,
    timers: &mut Timers,
    bus: &mut Bus,
    at: EntryNo,
    due: u64,
    body: &Body,
    options: &Options,
) -> Result<Outcome, NoMemory>
    requires places { HavePlaces contexts.old bus.old }
    requires deep { tree_depth body.now ≤ 100 }
    ensures keeps { (history : List Traced) (others : List Timer) → StoresStand contexts.old others bus.old history → StoresStand contexts.new others bus.new history }
    ensures outcome { IfOk result (λ outcome. outcome ≡ outcomes.Ok options.now.headers (coded_in bus.old.codecs options.now.codec body.now) (Some (record { 0 = at }))) }
    ensures timer { OnOk result (timers.new ≡ timer_order.put (record { id = at; due = due; period = None }) timers.old) }
    ensures room { OnOk result (HaveRoom contexts.new bus.new 1) }
    ensures requests { OnOk result (0 < bus.new.requests.room) }
    ensures err { OnErr result (timers.new ≡ timers.old) }
    ensures places { HavePlaces contexts.new bus.new }
    ensures owed { contexts.new.owed ≡ contexts.old.owed }
{
    let outcome = replied(bus, body, options, Some(MessageId(at)))?;
    prepare_request(contexts, timers, bus, at, due, 0)?;
    Ok(outcome)
}
