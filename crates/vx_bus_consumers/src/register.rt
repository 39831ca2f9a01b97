ghost use Rattle.std.specs.Prelude.{◌≡◌, ◌<◌, List, IfOk, IfErr, OnErr};
ghost use Rattle.vx_call.specs.declared.history.Traced.{Traced};
ghost use Rattle.vx_context.specs.Stands.{IsNext};
ghost use Rattle.vx_bus_store.specs.Stands.{StoresStand, Follows, HavePlaces};

use vx_bus_refusals::register_refusal;
use vx_bus_store::Bus;
use vx_call::{Call, Consumer, Reply, Unmade};
use vx_context::Contexts;
use vx_data::{ConsumerId, ContextId, EntryNo, PassNo, Text};
use vx_message::Owner;
use vx_timer::Timers;

/// Registers a consumer.
pub fn register(
    contexts: &Contexts,
    timers: &Timers,
    bus: &mut Bus,
    at: EntryNo,
    pass: PassNo,
    context: ContextId,
    address: Text,
    limit: u32,
) -> Result<Reply, Unmade>
    requires places { HavePlaces contexts.now bus.old }
    ensures ok { IfOk result (λ reply. (history : List Traced) → StoresStand contexts.now timers.now bus.old history → IsNext at history → Follows contexts.now timers.now bus.new history pass (Call.Register context address limit) reply) }
    ensures err { OnErr result ((history : List Traced) → StoresStand contexts.now timers.now bus.old history → StoresStand contexts.now timers.now bus.new history) }
    ensures back { IfErr result (λ unmade. unmade.call ≡ Call.Register context address limit) }
    ensures places { HavePlaces contexts.now bus.new }
{
    if let Some(refusal) = register_refusal(contexts, pass, context, &address, limit) {
        return Ok(Reply::Refused(refusal));
    }
    let id = ConsumerId(at);
    match bus.add(Consumer {
        id,
        owner: Owner::Context(context),
        address,
        limit,
    }) {
        Ok(()) => Ok(Reply::Consumer(id)),
        Err(
            Consumer {
                id: _,
                owner: _,
                address,
                limit,
            },
        ) => Err(Unmade {
            call: Call::Register {
                context,
                address,
                limit,
            },
        }),
    }
}
