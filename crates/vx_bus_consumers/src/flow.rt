//! Pause, Resume and Fetch.
ghost use Rattle.std.specs.Prelude.{◌≡◌, ◌+◌, ◌-◌, ◌≤◌, ◌++◌, List, length, filter, take, drop};
ghost use Rattle.vx_call.specs.declared.call.Call.TheVariants as calls;
ghost use Rattle.vx_call.specs.declared.history.Traced.{Traced};
ghost use Rattle.vx_call.specs.Items.{is_for};
ghost use Rattle.vx_call.specs.Kinds.{kind_of};
ghost use Rattle.vx_context.specs.Stands.{IsNext};
ghost use Rattle.vx_bus_store.specs.Stands.{StoresStand, Follows, HavePlaces, AreOfOneHistory};
ghost use Rattle.vx_bus_store.specs.Stores.{message_items};

use vx_bus_refusals::{consumer_refusal, fetch_refusal};
use vx_bus_store::{Bus, home_of, is_for};
use vx_call::{Reply, Task};
use vx_context::Contexts;
use vx_data::{ConsumerId, ContextId, EntryNo, PassNo};
use vx_message::ItemKind;
use vx_timer::Timers;

/// Holds again the messages of a consumer that are ready and were not taken, and makes no more of them ready. It takes
/// no memory.
pub fn pause(
    contexts: &mut Contexts,
    timers: &Timers,
    bus: &mut Bus,
    at: EntryNo,
    pass: PassNo,
    consumer: ConsumerId,
) -> Reply
    requires places { HavePlaces contexts.old bus.old }
    requires one { AreOfOneHistory contexts.old timers.now bus.old }
    ensures follows { (history : List Traced) → StoresStand contexts.old timers.now bus.old history → IsNext at history → Follows contexts.new timers.now bus.new history pass (calls.Pause consumer) result }
    ensures places { HavePlaces contexts.new bus.new }
    ensures owed { contexts.new.owed ≡ contexts.old.owed }
{
    if let Some(refusal) = consumer_refusal(contexts, bus, pass, consumer) {
        return Reply::Refused(refusal);
    }
    contexts.cancel(consumer);
    bus.pause(consumer);
    Reply::Done
}

/// Makes every held message of a consumer ready. It takes no memory.
pub fn resume(
    contexts: &mut Contexts,
    timers: &Timers,
    bus: &mut Bus,
    at: EntryNo,
    pass: PassNo,
    consumer: ConsumerId,
) -> Reply
    requires places { HavePlaces contexts.old bus.old }
    requires one { AreOfOneHistory contexts.old timers.now bus.old }
    ensures follows { (history : List Traced) → StoresStand contexts.old timers.now bus.old history → IsNext at history → Follows contexts.new timers.now bus.new history pass (calls.Resume consumer) result }
    ensures places { HavePlaces contexts.new bus.new }
    ensures owed { contexts.new.owed ≡ contexts.old.owed }
{
    if let Some(refusal) = consumer_refusal(contexts, bus, pass, consumer) {
        return Reply::Refused(refusal);
    }
    let handler = match bus.handler(consumer) {
        Some(handler) => handler,
        None => unreachable!(),
    };
    let context = match home_of(handler.consumer.owner) {
        Some(context) => context,
        None => unreachable!(),
    };
    let held = handler.flow.held();
    bus.resume(consumer);
    make_ready(contexts, bus, at, consumer, context, held, held);
    Reply::Done
}

/// Makes so many more messages of a consumer ready. It takes no memory.
pub fn fetch(
    contexts: &mut Contexts,
    timers: &Timers,
    bus: &mut Bus,
    at: EntryNo,
    pass: PassNo,
    consumer: ConsumerId,
    count: u32,
) -> Reply
    requires places { HavePlaces contexts.old bus.old }
    requires one { AreOfOneHistory contexts.old timers.now bus.old }
    ensures follows { (history : List Traced) → StoresStand contexts.old timers.now bus.old history → IsNext at history → Follows contexts.new timers.now bus.new history pass (calls.Fetch consumer count) result }
    ensures places { HavePlaces contexts.new bus.new }
    ensures owed { contexts.new.owed ≡ contexts.old.owed }
{
    if let Some(refusal) = fetch_refusal(contexts, bus, pass, consumer, count) {
        return Reply::Refused(refusal);
    }
    let handler = match bus.handler(consumer) {
        Some(handler) => handler,
        None => unreachable!(),
    };
    let context = match home_of(handler.consumer.owner) {
        Some(context) => context,
        None => unreachable!(),
    };
    let held = handler.flow.held();
    let freed = handler.flow.freed_by(count);
    bus.fetch(consumer, count);
    make_ready(contexts, bus, at, consumer, context, held, freed);
    Reply::Done
}

// Makes so many of a consumer's messages ready, of which the last `held` ones were held, at places from 0.
fn make_ready(
    contexts: &mut Contexts,
    bus: &Bus,
    at: EntryNo,
    consumer: ConsumerId,
    context: ContextId,
    held: u64,
    count: u64,
)
    requires { count ≤ contexts.old.room }
    ensures items { contexts.new ≡ record contexts.old { waiting = contexts.old.waiting ++ message_items contexts.old.made at context 0 (take count (drop (length (filter (is_for consumer) bus.now.tasks) - held) (filter (is_for consumer) bus.now.tasks))); room = contexts.new.room } }
    ensures room { contexts.old.room ≤ contexts.new.room + count }
{
    let ready = bus.message_count(consumer).saturating_sub(held as usize);
    let messages = bus.tasks().iter().filter(|task| is_for(consumer, task));
    for (place, task) in messages.skip(ready).take(count as usize).enumerate() {
        contexts.put(at, place as u64, context, kind_of(task));
    }
}

// What kind of task it is.
fn kind_of(task: &Task) -> ItemKind
    ensures { result ≡ kind_of task.now }
{
    match task {
        Task::Start(context) => ItemKind::Start(*context),
        Task::Deliver { consumer, message } => ItemKind::Deliver(*consumer, message.id),
        Task::Outcome {
            request,
            outcome: _,
        } => ItemKind::Outcome(*request),
        Task::Fire(timer) => ItemKind::Fire(*timer),
        Task::Run(queued) => ItemKind::Run(*queued),
        Task::Job(queued) => ItemKind::Job(*queued),
        Task::JobDone { queued, result: _ } => ItemKind::JobDone(*queued),
        Task::Connected(_, at) => ItemKind::Connected(*at),
        Task::PromiseEnd {
            awaited,
            promise: _,
            result: _,
        } => ItemKind::PromiseEnd(*awaited),
        Task::DeployEnd {
            deployment,
            result: _,
        } => ItemKind::DeployEnd(*deployment),
        Task::UndeployEnd(deployment) => ItemKind::UndeployEnd(*deployment),
        Task::Stop(context) => ItemKind::Stop(*context),
    }
}
