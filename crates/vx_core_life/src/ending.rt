//! How the starts and stops of verticles end: as their task does, or later, as a handler says.
ghost use Rattle.std.specs.Prelude.{◌≡◌, ◌≤◌, ℤ, List};
ghost use Rattle.vx_call.specs.declared.call.Call.TheVariants as calls;
ghost use Rattle.vx_call.specs.declared.history.Traced.{Traced};
ghost use Rattle.vx_call.specs.History.{plain_entry, no_mark};
ghost use Rattle.vx_call.specs.Machine.{IsLegal};
ghost use Rattle.vx_context.specs.Stands.{IsNext};
ghost use Rattle.vx_bus_store.specs.Stands.{HavePlaces};
ghost use Rattle.vx_core_life.specs.Moving.{promised};
ghost use Rattle.vx_core_life.specs.Stands.{AllStand, AreAt, LivesFollow, finished};
ghost use Rattle.vx_life_rows.specs.Moves.{entry_of};

use crate::ends::end_over;
use crate::over::{held_over, start_of, stop_of};
use crate::refusals::{start_done_refusal, stop_done_refusal};
use vx_bus_store::Bus;
use vx_call::{End, Refusal, Reply};
use vx_context::{Contexts, not_holding};
use vx_data::{EntryNo, PassNo};
use vx_life::Life;
use vx_message::DoneResult;
use vx_timer::Timers;

/// Ends the start of the verticle whose handler makes the call, well or failed. A failed start closes the context and asks
/// the deployment to end. It takes no memory.
pub fn start_done(
    life: &mut Life,
    contexts: &mut Contexts,
    timers: &mut Timers,
    bus: &mut Bus,
    at: EntryNo,
    pass: PassNo,
    done: DoneResult,
) -> Reply
    requires one { AreAt at life.old contexts.old timers.old bus.old }
    requires places { HavePlaces contexts.old bus.old }
    requires owed { promised life.old ≤ contexts.old.owed }
    ensures follows { (history : List Traced) → AllStand life.old contexts.old timers.old bus.old history → IsLegal history → IsNext at history → LivesFollow life.new contexts.new timers.new bus.new history (plain_entry pass (calls.StartDone done) result no_mark) }
    ensures places { HavePlaces contexts.new bus.new }
    ensures owed { promised life.new ≤ contexts.new.owed }
{
    if let Some(refusal) = start_done_refusal(life, contexts, pass) {
        return Reply::Refused(refusal);
    }
    let over = start_of(contexts, pass, done);
    end_over(life, contexts, timers, bus, at, over);
    Reply::Done
}

/// Ends the stop of the verticle whose handler makes the call, and closes its context. It takes no memory.
pub fn stop_done(
    life: &mut Life,
    contexts: &mut Contexts,
    timers: &mut Timers,
    bus: &mut Bus,
    at: EntryNo,
    pass: PassNo,
) -> Reply
    requires one { AreAt at life.old contexts.old timers.old bus.old }
    requires places { HavePlaces contexts.old bus.old }
    requires owed { promised life.old ≤ contexts.old.owed }
    ensures follows { (history : List Traced) → AllStand life.old contexts.old timers.old bus.old history → IsLegal history → IsNext at history → LivesFollow life.new contexts.new timers.new bus.new history (plain_entry pass calls.StopDone result no_mark) }
    ensures places { HavePlaces contexts.new bus.new }
    ensures owed { promised life.new ≤ contexts.new.owed }
{
    if let Some(refusal) = stop_done_refusal(life, contexts, pass) {
        return Reply::Refused(refusal);
    }
    let over = stop_of(contexts, pass);
    end_over(life, contexts, timers, bus, at, over);
    Reply::Done
}

/// Ends the task that a pass holds, and with it a start or a stop, where the task was one, did not end before and does not
/// end later. It takes no memory.
pub fn finish(
    life: &mut Life,
    contexts: &mut Contexts,
    timers: &mut Timers,
    bus: &mut Bus,
    at: EntryNo,
    pass: PassNo,
    end: End,
) -> Result<(), Refusal>
    requires one { AreAt at life.old contexts.old timers.old bus.old }
    requires places { HavePlaces contexts.old bus.old }
    requires owed { promised life.old ≤ contexts.old.owed }
    ensures follows { (history : List Traced) (states : List (List ℤ)) → AllStand life.old contexts.old timers.old bus.old history → IsLegal history → IsNext at history → LivesFollow life.new contexts.new timers.new bus.new history (entry_of pass (calls.Finish end) (finished result) states no_mark) }
    ensures places { HavePlaces contexts.new bus.new }
    ensures owed { promised life.new ≤ contexts.new.owed }
{
    if let Some(refusal) = not_holding(contexts, pass) {
        return Err(refusal);
    }
    let over = held_over(contexts, pass, end);
    end_over(life, contexts, timers, bus, at, over);
    contexts.finish(pass);
    Ok(())
}
