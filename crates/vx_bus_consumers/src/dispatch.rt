ghost use Rattle.std.specs.Prelude.{◌≡◌, ◌<◌, ◌^◌, List, true, IsTrue, IfOk, IfErr, IsOk, OnErr};
ghost use Rattle.vx_call.specs.declared.history.Traced.{Traced};
ghost use Rattle.vx_call.specs.Plain.{takes_no_memory};
ghost use Rattle.vx_context.specs.Stands.{IsNext};
ghost use Rattle.vx_bus_store.specs.Stands.{StoresStand, Follows, HavePlaces, AreOfOneHistory};
ghost use Rattle.vx_bus_consumers.specs.Calls.{is_consumer_call};

use crate::flow::{fetch, pause, resume};
use crate::register::register;
use crate::unregister::unregister;
use vx_bus_store::Bus;
use vx_call::{Call, Reply, Unmade};
use vx_context::Contexts;
use vx_data::{EntryNo, PassNo};
use vx_timer::Timers;

/// Whether the call is Register, Unregister, Pause, Resume or Fetch.
pub fn is_consumer_call(call: &Call) -> bool
    ensures { result ≡ is_consumer_call call.now }
{
    matches!(
        call,
        Call::Register { .. }
            | Call::Unregister(_)
            | Call::Pause(_)
            | Call::Resume(_)
            | Call::Fetch(_, _)
    )
}

/// Makes a call of a consumer, as the entry of this number.
pub fn step(
    contexts: &mut Contexts,
    timers: &mut Timers,
    bus: &mut Bus,
    at: EntryNo,
    pass: PassNo,
    call: Call,
) -> Result<Reply, Unmade>
    requires small { at.0 < 2 ^ 48 }
    requires own { IsTrue (is_consumer_call call) }
    requires places { HavePlaces contexts.old bus.old }
    requires one { AreOfOneHistory contexts.old timers.old bus.old }
    ensures ok { IfOk result (λ reply. (history : List Traced) → StoresStand contexts.old timers.old bus.old history → IsNext at history → Follows contexts.new timers.new bus.new history pass call reply) }
    ensures err { OnErr result ((history : List Traced) → StoresStand contexts.old timers.old bus.old history → StoresStand contexts.new timers.new bus.new history) }
    ensures back { IfErr result (λ unmade. unmade.call ≡ call) }
    ensures sure { takes_no_memory call ≡ true → IsOk result }
    ensures places { HavePlaces contexts.new bus.new }
    ensures owed { contexts.new.owed ≡ contexts.old.owed }
{
    match call {
        Call::Register {
            context,
            address,
            limit,
        } => register(contexts, timers, bus, at, pass, context, address, limit),
        Call::Unregister(consumer) => Ok(unregister(contexts, timers, bus, at, pass, consumer)),
        Call::Pause(consumer) => Ok(pause(contexts, timers, bus, at, pass, consumer)),
        Call::Resume(consumer) => Ok(resume(contexts, timers, bus, at, pass, consumer)),
        Call::Fetch(consumer, count) => Ok(fetch(contexts, timers, bus, at, pass, consumer, count)),
        _ => unreachable!(),
    }
}
