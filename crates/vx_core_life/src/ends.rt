//! Starts and stops end: contexts close with them, and deployments are brought on.
ghost use Rattle.std.specs.Prelude.{◌≡◌, ◌≤◌, true, List, [], ◌∷◌, ◌++◌, Some};
ghost use Rattle.std.specs.List.{list_any};
ghost use Rattle.std.specs.Option.{option_map};
ghost use Rattle.vx_data.specs.Ids.{same_context};
ghost use Rattle.vx_message.specs.declared.DoneResult.TheVariants as results;
ghost use Rattle.vx_timer.specs.declared.timers.Timer.{Timer};
ghost use Rattle.vx_call.specs.declared.history.Traced.{Traced};
ghost use Rattle.vx_call.specs.Starts.{start_ended, start_failed, starter, stopper};
ghost use Rattle.vx_call.specs.Closings.{context_in};
ghost use Rattle.vx_call.specs.Machine.{IsLegal};
ghost use Rattle.vx_context.specs.Stands.{IsNext};
ghost use Rattle.vx_bus_store.specs.Stores.{BusStore};
ghost use Rattle.vx_bus_store.specs.Stands.{HavePlaces};
ghost use Rattle.vx_core_life.specs.Ending.{IsOver, MayEnd};
ghost use Rattle.vx_core_life.specs.Moving.{promised};
ghost use Rattle.vx_core_life.specs.Stands.{AllStand, AreAt, StandButHeld};

use crate::moving::move_on;
use crate::over::Over;
use vx_bus_closing::close_context;
use vx_bus_store::Bus;
use vx_context::Contexts;
use vx_data::{ContextId, EntryNo};
use vx_life::Life;
use vx_message::DoneResult;
use vx_timer::Timers;

/// Ends a start or a stop at an entry, if it did not end before. A failed start closes its context and asks its deployment to
/// end, and a stop closes its context. Tasks that passes hold stay. It takes no memory.
pub fn end_over(
    life: &mut Life,
    contexts: &mut Contexts,
    timers: &mut Timers,
    bus: &mut Bus,
    at: EntryNo,
    over: Over,
)
    requires one { AreAt at life.old contexts.old timers.old bus.old }
    requires places { HavePlaces contexts.old bus.old }
    requires owed { promised life.old ≤ contexts.old.owed }
    ensures ends { (history : List Traced) (new : Traced) → AllStand life.old contexts.old timers.old bus.old history → IsLegal history → IsNext at history → MayEnd new → IsOver history new.entry.pass new.entry.call over → StandButHeld life.new contexts.new timers.new bus.new contexts.old.held (history ++ new ∷ []) }
    ensures places { HavePlaces contexts.new bus.new }
    ensures owed { promised life.new ≤ contexts.new.owed }
{
    match over {
        Over::Nothing => {}
        Over::Start(context, done) => end_start(life, contexts, timers, bus, at, context, done),
        Over::Stop(context) => end_stop(life, contexts, timers, bus, at, context),
    }
}

// Ends a start, if it did not end before.
fn end_start(
    life: &mut Life,
    contexts: &mut Contexts,
    timers: &mut Timers,
    bus: &mut Bus,
    at: EntryNo,
    context: ContextId,
    done: DoneResult,
)
    requires one { AreAt at life.old contexts.old timers.old bus.old }
    requires places { HavePlaces contexts.old bus.old }
    requires owed { promised life.old ≤ contexts.old.owed }
    ensures ends { (history : List Traced) (new : Traced) → AllStand life.old contexts.old timers.old bus.old history → IsLegal history → IsNext at history → MayEnd new → starter history new.entry.pass new.entry.call ≡ Some (record { context = context; result = done }) → StandButHeld life.new contexts.new timers.new bus.new contexts.old.held (history ++ new ∷ []) }
    ensures places { HavePlaces contexts.new bus.new }
    ensures owed { promised life.new ≤ contexts.new.owed }
{
    if !life.is_unstarted(context) {
        return;
    }
    match done {
        DoneResult::Ok => end_well(life, contexts, at, context),
        DoneResult::Fail(_) | DoneResult::NoMemory => {
            end_failed(life, contexts, timers, bus, at, context, done)
        }
    }
}

// Ends a start well.
fn end_well(life: &mut Life, contexts: &mut Contexts, at: EntryNo, context: ContextId)
    requires owed { promised life.old ≤ contexts.old.owed }
    ensures ends { (history : List Traced) (new : Traced) (timers : List Timer) (bus : BusStore) → AllStand life.old contexts.old timers bus history → IsLegal history → IsNext at history → MayEnd new → start_ended history new.entry.pass new.entry.call ≡ Some (record { context = context; result = results.Ok }) → StandButHeld life.new contexts.new timers bus contexts.old.held (history ++ new ∷ []) }
    ensures owed { promised life.new ≤ contexts.new.owed }
    ensures room { contexts.old.room ≤ contexts.new.room }
{
    life.started(context);
    move_on(life, contexts, at, 0);
}

// Ends a start that failed.
fn end_failed(
    life: &mut Life,
    contexts: &mut Contexts,
    timers: &mut Timers,
    bus: &mut Bus,
    at: EntryNo,
    context: ContextId,
    failure: DoneResult,
)
    requires one { AreAt at life.old contexts.old timers.old bus.old }
    requires pending { list_any (same_context context) life.old.tree.starting ≡ true }
    requires places { HavePlaces contexts.old bus.old }
    requires owed { promised life.old ≤ contexts.old.owed }
    ensures ends { (history : List Traced) (new : Traced) → AllStand life.old contexts.old timers.old bus.old history → IsLegal history → IsNext at history → MayEnd new → start_failed history new.entry.pass new.entry.call ≡ Some (record { context = context; result = failure }) → StandButHeld life.new contexts.new timers.new bus.new contexts.old.held (history ++ new ∷ []) }
    ensures places { HavePlaces contexts.new bus.new }
    ensures owed { promised life.new ≤ contexts.new.owed }
{
    let count = close_context(contexts, timers, bus, at, context);
    life.start_failed(context, failure, at);
    move_on(life, contexts, at, count);
}

// Ends a stop, if it did not end before.
fn end_stop(
    life: &mut Life,
    contexts: &mut Contexts,
    timers: &mut Timers,
    bus: &mut Bus,
    at: EntryNo,
    context: ContextId,
)
    requires one { AreAt at life.old contexts.old timers.old bus.old }
    requires places { HavePlaces contexts.old bus.old }
    requires owed { promised life.old ≤ contexts.old.owed }
    ensures ends { (history : List Traced) (new : Traced) → AllStand life.old contexts.old timers.old bus.old history → IsLegal history → IsNext at history → MayEnd new → option_map context_in (stopper history new.entry.pass new.entry.call) ≡ Some context → StandButHeld life.new contexts.new timers.new bus.new contexts.old.held (history ++ new ∷ []) }
    ensures places { HavePlaces contexts.new bus.new }
    ensures owed { promised life.new ≤ contexts.new.owed }
{
    if !life.is_unstopped(context) {
        return;
    }
    let count = close_context(contexts, timers, bus, at, context);
    life.stopped(context);
    move_on(life, contexts, at, count);
}
