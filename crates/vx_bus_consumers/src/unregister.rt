ghost use Rattle.std.specs.Prelude.{◌≡◌, List};
ghost use Rattle.vx_call.specs.declared.call.Call.TheVariants as calls;
ghost use Rattle.vx_call.specs.declared.history.Traced.{Traced};
ghost use Rattle.vx_context.specs.Stands.{IsNext};
ghost use Rattle.vx_bus_store.specs.Stands.{StoresStand, Follows, HavePlaces};

use vx_bus_delivery::end_requests;
use vx_bus_refusals::consumer_refusal;
use vx_bus_store::Bus;
use vx_call::Reply;
use vx_context::Contexts;
use vx_data::{ConsumerId, EntryNo, PassNo};
use vx_request::Leaver;
use vx_timer::Timers;

/// Ends a consumer, the messages that wait for it, and the requests among them. It takes no memory.
pub fn unregister(
    contexts: &mut Contexts,
    timers: &mut Timers,
    bus: &mut Bus,
    at: EntryNo,
    pass: PassNo,
    consumer: ConsumerId,
) -> Reply
    requires places { HavePlaces contexts.old bus.old }
    ensures follows { (history : List Traced) → StoresStand contexts.old timers.old bus.old history → IsNext at history → Follows contexts.new timers.new bus.new history pass (calls.Unregister consumer) result }
    ensures places { HavePlaces contexts.new bus.new }
    ensures owed { contexts.new.owed ≡ contexts.old.owed }
{
    if let Some(refusal) = consumer_refusal(contexts, bus, pass, consumer) {
        return Reply::Refused(refusal);
    }
    contexts.cancel(consumer);
    bus.remove(consumer);
    end_requests(contexts, timers, bus, at, Leaver::Consumer(consumer));
    Reply::Done
}
