//! Which row makes a call.
ghost use Rattle.std.specs.Prelude.{◌≡◌, ◌≤◌, List, true, IfOk, IfErr, IsOk, OnErr};
ghost use Rattle.vx_call.specs.declared.history.Traced.{Traced};
ghost use Rattle.vx_call.specs.History.{plain_entry, no_mark};
ghost use Rattle.vx_call.specs.Machine.{IsLegal};
ghost use Rattle.vx_call.specs.Plain.{takes_no_memory};
ghost use Rattle.vx_context.specs.Stands.{IsNext};
ghost use Rattle.vx_bus_store.specs.Stands.{HavePlaces};
ghost use Rattle.vx_core_life.specs.Calls.{is_life_call};
ghost use Rattle.vx_core_life.specs.Moving.{promised};
ghost use Rattle.vx_core_life.specs.Stands.{AllStand, AreAt, LivesFollow};

use crate::closing::close;
use crate::ending::{start_done, stop_done};
use crate::loops::{add_pool, set_loops};
use crate::undeploying::undeploy;
use vx_bus_store::Bus;
use vx_call::{Call, Reply, Unmade};
use vx_context::Contexts;
use vx_data::{EntryNo, PassNo};
use vx_life::Life;
use vx_timer::Timers;

/// Whether the call is a plain one of verticles: `step` makes it.
pub fn is_life_call(call: &Call) -> bool
    ensures { result ≡ is_life_call call.now }
{
    matches!(
        call,
        Call::SetLoops(_)
            | Call::AddPool { .. }
            | Call::Undeploy { .. }
            | Call::StartDone(_)
            | Call::StopDone
            | Call::Close
    )
}

/// Makes a plain call of verticles, as the entry of this number.
pub fn step(
    life: &mut Life,
    contexts: &mut Contexts,
    timers: &mut Timers,
    bus: &mut Bus,
    at: EntryNo,
    pass: PassNo,
    call: Call,
) -> Result<Reply, Unmade>
    requires own { is_life_call call ≡ true }
    requires one { AreAt at life.old contexts.old timers.old bus.old }
    requires places { HavePlaces contexts.old bus.old }
    requires owed { promised life.old ≤ contexts.old.owed }
    ensures ok { IfOk result (λ reply. (history : List Traced) → AllStand life.old contexts.old timers.old bus.old history → IsLegal history → IsNext at history → LivesFollow life.new contexts.new timers.new bus.new history (plain_entry pass call reply no_mark)) }
    ensures err { OnErr result ((history : List Traced) → AllStand life.old contexts.old timers.old bus.old history → AllStand life.new contexts.new timers.new bus.new history) }
    ensures back { IfErr result (λ unmade. unmade.call ≡ call) }
    ensures sure { takes_no_memory call ≡ true → IsOk result }
    ensures places { HavePlaces contexts.new bus.new }
    ensures owed { promised life.new ≤ contexts.new.owed }
{
    match call {
        Call::SetLoops(count) => Ok(set_loops(life, contexts, pass, count)),
        Call::AddPool { name, size } => add_pool(life, contexts, at, pass, name, size),
        Call::Undeploy { deployment, tell } => {
            Ok(undeploy(life, contexts, at, pass, deployment, tell))
        }
        Call::StartDone(done) => Ok(start_done(life, contexts, timers, bus, at, pass, done)),
        Call::StopDone => Ok(stop_done(life, contexts, timers, bus, at, pass)),
        Call::Close => Ok(close(life, contexts, timers, bus, at, pass)),
        _ => unreachable!(),
    }
}
