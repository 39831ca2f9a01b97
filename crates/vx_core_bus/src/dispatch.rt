ghost use Rattle.std.specs.Prelude.{◌≡◌, ◌<◌, ◌≤◌, ◌^◌, List, true, IsTrue, IfOk, IfErr, IsOk, OnErr};
ghost use Rattle.vx_call.specs.declared.history.Traced.{Traced};
ghost use Rattle.vx_call.specs.Plain.{takes_no_memory};
ghost use Rattle.vx_context.specs.Stands.{IsNext};
ghost use Rattle.vx_bus_store.specs.Stands.{StoresStand, Follows, HavePlaces, AreOfOneHistory, IsAt};
ghost use Rattle.vx_core_bus.specs.Calls.{is_interceptor_call, is_bus_call};

use crate::interceptors::{add_codec, add_rule, remove_codec, remove_rule};
use vx_bus_consumers::is_consumer_call;
use vx_bus_send::is_sending_call;
use vx_bus_store::Bus;
use vx_call::{Call, Reply, Unmade};
use vx_context::Contexts;
use vx_data::{EntryNo, PassNo};
use vx_timer::Timers;

/// Makes a call of the bus, as the entry of this number, at this moment in ms.
pub fn step(
    contexts: &mut Contexts,
    timers: &mut Timers,
    bus: &mut Bus,
    at: EntryNo,
    now: u64,
    pass: PassNo,
    call: Call,
) -> Result<Reply, Unmade>
    requires small { at.0 < 2 ^ 48 }
    requires early { now ≤ 2 ^ 62 }
    requires own { IsTrue (is_bus_call call) }
    requires places { HavePlaces contexts.old bus.old }
    requires one { AreOfOneHistory contexts.old timers.old bus.old }
    ensures ok { IfOk result (λ reply. (history : List Traced) → StoresStand contexts.old timers.old bus.old history → IsAt at now history → Follows contexts.new timers.new bus.new history pass call reply) }
    ensures err { OnErr result ((history : List Traced) → StoresStand contexts.old timers.old bus.old history → StoresStand contexts.new timers.new bus.new history) }
    ensures back { IfErr result (λ unmade. unmade.call ≡ call) }
    ensures sure { takes_no_memory call ≡ true → IsOk result }
    ensures places { HavePlaces contexts.new bus.new }
    ensures owed { contexts.new.owed ≡ contexts.old.owed }
{
    if is_consumer_call(&call) {
        vx_bus_consumers::step(contexts, timers, bus, at, pass, call)
    } else if is_sending_call(&call) {
        vx_bus_send::step(contexts, timers, bus, at, now, pass, call)
    } else {
        intercept(contexts, timers, bus, at, pass, call)
    }
}

// Adds or removes a codec or a rule, as the entry of this number.
fn intercept(
    contexts: &Contexts,
    timers: &Timers,
    bus: &mut Bus,
    at: EntryNo,
    pass: PassNo,
    call: Call,
) -> Result<Reply, Unmade>
    requires own { IsTrue (is_interceptor_call call) }
    requires places { HavePlaces contexts.now bus.old }
    ensures ok { IfOk result (λ reply. (history : List Traced) → StoresStand contexts.now timers.now bus.old history → IsNext at history → Follows contexts.now timers.now bus.new history pass call reply) }
    ensures err { OnErr result ((history : List Traced) → StoresStand contexts.now timers.now bus.old history → StoresStand contexts.now timers.now bus.new history) }
    ensures back { IfErr result (λ unmade. unmade.call ≡ call) }
    ensures sure { takes_no_memory call ≡ true → IsOk result }
    ensures places { HavePlaces contexts.now bus.new }
{
    match call {
        Call::AddCodec { name, form } => add_codec(contexts, timers, bus, at, pass, name, form),
        Call::RemoveCodec(name) => Ok(remove_codec(contexts, timers, bus, at, pass, name)),
        Call::AddRule {
            side,
            condition,
            verdict,
        } => add_rule(contexts, timers, bus, at, pass, side, condition, verdict),
        Call::RemoveRule(rule) => Ok(remove_rule(contexts, timers, bus, at, pass, rule)),
        _ => unreachable!(),
    }
}
