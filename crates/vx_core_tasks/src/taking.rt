ghost use Rattle.std.specs.Prelude.{◌≡◌, ◌<◌, List, length, position, Some, None};
ghost use Rattle.vx_message.specs.declared.Lane.{Lane};
ghost use Rattle.vx_call.specs.declared.call.Call.TheVariants as calls;
ghost use Rattle.vx_call.specs.declared.reply.Reply.TheVariants as replies;
ghost use Rattle.vx_call.specs.declared.history.Traced.{Traced};
ghost use Rattle.vx_call.specs.Closings.{hub_closed_at};
ghost use Rattle.vx_call.specs.History.{plain_entry, no_mark};
ghost use Rattle.vx_call.specs.Machine.{IsLegal};
ghost use Rattle.vx_call.specs.Rows as rows;
ghost use Rattle.vx_context.specs.Stores.{is_ready};
ghost use Rattle.vx_context.specs.Stands.{ContextsStand, IsNext};
ghost use Rattle.vx_bus_store.specs.Stands.{HavePlaces};
ghost use Rattle.vx_core_life.specs.Moving.{promised};
ghost use Rattle.vx_core_life.specs.Stands.{AllStand, AreAt, LivesFollow};
ghost use Rattle.vx_core_tasks.specs.Named.{NameContexts};
ghost use Rattle.vx_core_tasks.specs.Taking.{handed_out_of};

use vx_bus_store::Bus;
use vx_call::{Lane, Refusal, Reply, Task};
use vx_context::{Contexts, already_holding, lane_held, no_lane, not_your_lane};
use vx_data::{EntryNo, PassNo};
use vx_life::Life;
use vx_life_rows::task_of;
use vx_message::ItemKind;
use vx_timer::Timers;

// Why a Take is refused.
fn take_refusal(contexts: &Contexts, pass: PassNo, lane: Lane) -> Option<Refusal>
    ensures { (history : List Traced) → ContextsStand contexts.now history → result ≡ rows.take_refusal history pass lane }
{
    already_holding(contexts, pass)
        .or(no_lane(contexts, lane))
        .or(not_your_lane(contexts, pass, lane))
        .or(lane_held(contexts, lane))
}

/// Takes the next task of a lane, and notes a stop that is taken. It takes no memory.
pub fn take(
    life: &mut Life,
    contexts: &mut Contexts,
    timers: &Timers,
    bus: &mut Bus,
    at: EntryNo,
    pass: PassNo,
    lane: Lane,
) -> Reply
    requires one { AreAt at life.old contexts.old timers.now bus.old }
    requires places { HavePlaces contexts.old bus.old }
    ensures follows { (history : List Traced) → AllStand life.old contexts.old timers.now bus.old history → NameContexts history → IsLegal history → IsNext at history → LivesFollow life.new contexts.new timers.now bus.new history (plain_entry pass (calls.Take lane) result no_mark) }
    ensures places { HavePlaces contexts.new bus.new }
    ensures owed { contexts.new.owed ≡ contexts.old.owed }
    ensures promised { promised life.new ≡ promised life.old }
{
    if life.closed_at().is_some() {
        return Reply::Stopped;
    }
    if let Some(refusal) = take_refusal(contexts, pass, lane) {
        return Reply::Refused(refusal);
    }
    match contexts.next(lane) {
        None => Reply::Idle,
        Some(index) => Reply::Task(hand_out(life, contexts, timers, bus, at, pass, index)),
    }
}

// Hands out the task that waits at a place: the next one of each lane that finds it there. The hub is open.
fn hand_out(
    life: &mut Life,
    contexts: &mut Contexts,
    timers: &Timers,
    bus: &mut Bus,
    at: EntryNo,
    pass: PassNo,
    index: usize,
) -> Task
    requires inside { index < length contexts.old.waiting }
    requires one { AreAt at life.old contexts.old timers.now bus.old }
    requires places { HavePlaces contexts.old bus.old }
    ensures follows { (history : List Traced) (lane : Lane) → AllStand life.old contexts.old timers.now bus.old history → NameContexts history → IsLegal history → IsNext at history → hub_closed_at history ≡ None → rows.take_refusal history pass lane ≡ None → position (is_ready contexts.old.pools contexts.old.held lane) contexts.old.waiting ≡ Some index → LivesFollow life.new contexts.new timers.now bus.new history (plain_entry pass (calls.Take lane) (replies.Task result) no_mark) }
    ensures places { HavePlaces contexts.new bus.new }
    ensures owed { contexts.new.owed ≡ contexts.old.owed }
    ensures promised { promised life.new ≡ promised life.old }
{
    let item = contexts.take(index, pass, at);
    let told = task_of(life, item.kind);
    note_stop(life, item.kind);
    match told {
        Some(task) => task,
        None => bus.take(item.kind, item.context),
    }
}

// Notes that a task of this kind is handed out, where it is a stop.
fn note_stop(life: &mut Life, kind: ItemKind)
    ensures noted { life.new ≡ handed_out_of kind life.old }
    ensures promised { promised life.new ≡ promised life.old }
{
    if let ItemKind::Stop(context) = kind {
        life.stop_taken(context);
    }
}
