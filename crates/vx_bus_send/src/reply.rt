ghost use Rattle.std.specs.Prelude.{◌≡◌, List, IfOk, IfErr, OnErr};
ghost use Rattle.vx_call.specs.declared.history.Traced.{Traced};
ghost use Rattle.vx_context.specs.Stands.{IsNext};
ghost use Rattle.vx_bus_store.specs.Stands.{StoresStand, Follows, HavePlaces, AreOfOneHistory};

use vx_bus_delivery::{replied, settle};
use vx_bus_refusals::reply_refusal;
use vx_bus_store::Bus;
use vx_call::{Call, Options, Reply, Unmade};
use vx_context::Contexts;
use vx_data::{Body, EntryNo, MessageId, NoMemory, PassNo};
use vx_timer::Timers;

/// Replies to a request, with a copy of the headers and of the body as its codec leaves it.
pub fn reply(
    contexts: &mut Contexts,
    timers: &mut Timers,
    bus: &mut Bus,
    at: EntryNo,
    pass: PassNo,
    message: MessageId,
    body: Body,
    options: Options,
) -> Result<Reply, Unmade>
    requires places { HavePlaces contexts.old bus.old }
    requires one { AreOfOneHistory contexts.old timers.old bus.old }
    ensures ok { IfOk result (λ reply. (history : List Traced) → StoresStand contexts.old timers.old bus.old history → IsNext at history → Follows contexts.new timers.new bus.new history pass (Call.Reply message body options) reply) }
    ensures err { OnErr result ((history : List Traced) → StoresStand contexts.old timers.old bus.old history → StoresStand contexts.new timers.new bus.new history) }
    ensures back { IfErr result (λ unmade. unmade.call ≡ Call.Reply message body options) }
    ensures places { HavePlaces contexts.new bus.new }
    ensures owed { contexts.new.owed ≡ contexts.old.owed }
{
    if let Some(refusal) = reply_refusal(contexts, bus, pass, message, &body, &options) {
        return Ok(Reply::Refused(refusal));
    }
    match replied(bus, &body, &options, None) {
        Ok(outcome) => {
            settle(contexts, timers, bus, at, message, outcome);
            Ok(Reply::Done)
        }
        Err(NoMemory) => Err(Unmade {
            call: Call::Reply {
                message,
                body,
                options,
            },
        }),
    }
}
