//! Plain calls, by what makes them.
ghost use Rattle.std.specs.Prelude.{◌≡◌, ◌<◌, ◌≤◌, ◌^◌, List, true, false, IsTrue, IfOk, IfErr, IsOk, OnErr};
ghost use Rattle.vx_call.specs.declared.history.Traced.{Traced};
ghost use Rattle.vx_call.specs.History.{plain_entry, no_mark};
ghost use Rattle.vx_call.specs.Built.{is_stored};
ghost use Rattle.vx_call.specs.Machine.{IsLegal};
ghost use Rattle.vx_call.specs.Plain.{is_plain, takes_no_memory};
ghost use Rattle.vx_context.specs.Stands.{IsNext};
ghost use Rattle.vx_bus_store.specs.Stands.{HavePlaces, IsAt};
ghost use Rattle.vx_core_life.specs.Moving.{promised};
ghost use Rattle.vx_core_life.specs.Calls.{is_life_call};
ghost use Rattle.vx_core_life.specs.Stands as lives;
ghost use Rattle.vx_core_bus.specs.Calls.{is_bus_call};
ghost use Rattle.vx_hub.specs.Stands.{PartsStand, PartsFollow};

use crate::hub::LIMIT;
use crate::rows::advance::advance;
use crate::rows::new_context::new_context;
use crate::rows::new_pass::new_pass;
use vx_call::{Call, Reply, Unmade};
use vx_context::Contexts;
use vx_core_bus::{Bus, step};
use vx_core_life::is_life_call;
use vx_data::{EntryNo, Moment, PassNo};
use vx_life::Life;
use vx_timer::Timers;

/// Makes a plain call, as the entry of this number.
pub fn plain_row(
    passes: &mut u64,
    now: &mut Moment,
    life: &mut Life,
    contexts: &mut Contexts,
    timers: &mut Timers,
    bus: &mut Bus,
    at: EntryNo,
    pass: PassNo,
    call: Call,
) -> Result<Reply, Unmade>
    requires small { at.0 < LIMIT }
    requires plain { IsTrue (is_plain call) }
    requires stored { is_stored call ≡ true }
    requires one { lives.AreAt at life.old contexts.old timers.old bus.old }
    requires places { HavePlaces contexts.old bus.old }
    requires owed { promised life.old ≤ contexts.old.owed }
    ensures ok { IfOk result (λ reply. (history : List Traced) → PartsStand passes.old now.old life.old contexts.old timers.old bus.old history → IsLegal history → IsNext at history → PartsFollow passes.new now.new life.new contexts.new timers.new bus.new history (plain_entry pass call reply no_mark)) }
    ensures err { OnErr result ((history : List Traced) → PartsStand passes.old now.old life.old contexts.old timers.old bus.old history → PartsStand passes.new now.new life.new contexts.new timers.new bus.new history) }
    ensures passes_stay { passes.old ≤ passes.new }
    ensures back { IfErr result (λ unmade. unmade.call ≡ call) }
    ensures sure { takes_no_memory call ≡ true → IsOk result }
    ensures places { HavePlaces contexts.new bus.new }
    ensures owed { promised life.new ≤ contexts.new.owed }
{
    let moment = now.ms();
    match call {
        Call::NewPass => Ok(Reply::Pass(new_pass(passes))),
        Call::NewContext => new_context(contexts, at, pass),
        Call::Advance(moment) => Ok(advance(contexts, timers, bus, now, at, moment)),
        _ => core_row(life, contexts, timers, bus, at, moment, pass, call),
    }
}

// Makes a call of verticles or of the bus.
fn core_row(
    life: &mut Life,
    contexts: &mut Contexts,
    timers: &mut Timers,
    bus: &mut Bus,
    at: EntryNo,
    now: u64,
    pass: PassNo,
    call: Call,
) -> Result<Reply, Unmade>
    requires small { at.0 < LIMIT }
    requires early { now ≤ 2 ^ 62 }
    requires own { is_life_call call ≡ false → IsTrue (is_bus_call call) }
    requires one { lives.AreAt at life.old contexts.old timers.old bus.old }
    requires places { HavePlaces contexts.old bus.old }
    requires owed { promised life.old ≤ contexts.old.owed }
    ensures ok { IfOk result (λ reply. (history : List Traced) → lives.AllStand life.old contexts.old timers.old bus.old history → IsLegal history → IsAt at now history → lives.LivesFollow life.new contexts.new timers.new bus.new history (plain_entry pass call reply no_mark)) }
    ensures err { OnErr result ((history : List Traced) → lives.AllStand life.old contexts.old timers.old bus.old history → lives.AllStand life.new contexts.new timers.new bus.new history) }
    ensures back { IfErr result (λ unmade. unmade.call ≡ call) }
    ensures sure { takes_no_memory call ≡ true → IsOk result }
    ensures places { HavePlaces contexts.new bus.new }
    ensures owed { promised life.new ≤ contexts.new.owed }
{
    if is_life_call(&call) {
        vx_core_life::step(life, contexts, timers, bus, at, pass, call)
    } else {
        step(contexts, timers, bus, at, now, pass, call)
    }
}
