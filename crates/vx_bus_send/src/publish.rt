ghost use Rattle.std.specs.Prelude.{◌≡◌, ◌≤◌, ◌+◌, ◌<◌, List, ◌++◌, length, map, None, Some, IfOk, IfErr, OnErr};
ghost use Rattle.vx_data.specs.Bodies.{tree_depth};
ghost use Rattle.vx_data.specs.HeaderLists.{header_bytes};
ghost use Rattle.vx_call.specs.declared.call.Call.TheVariants as calls;
ghost use Rattle.vx_call.specs.declared.history.Traced.{Traced};
ghost use Rattle.vx_call.specs.Rows.{send_refusal};
ghost use Rattle.vx_context.specs.Stands.{IsNext};
ghost use Rattle.vx_bus_store.specs.declared.bus.Recipient.{Recipient};
ghost use Rattle.vx_bus_send.specs.Published.{parcel_for, parcel_items, parcel_task, ready_count};
ghost use Rattle.vx_bus_store.specs.Stands.{StoresStand, Follows, HavePlaces, AreOfOneHistory};
ghost use Rattle.vx_call.specs.declared.reply.Reply.TheVariants as replies;

use std::alloc::Global;
use vx_bus_delivery::{Passage, hand, make_room, passage_for};
use vx_bus_refusals::send_refusal;
use vx_bus_store::{Bus, Recipient};
use vx_call::{Call, Options, Reply, Unmade};
use vx_consumer::Arrive;
use vx_context::Contexts;
use vx_data::{Body, ConsumerId, EntryNo, List, NoMemory, PassNo, Text};
use vx_message::Message;
use vx_timer::Timers;

/// A message for one of the consumers.
#[derive(Drop)]
struct Parcel {
    recipient: Recipient,
    message: Message,
}

/// Sends a message to all consumers at its address.
pub fn publish(
    contexts: &mut Contexts,
    timers: &Timers,
    bus: &mut Bus,
    at: EntryNo,
    pass: PassNo,
    address: Text,
    body: Body,
    options: Options,
) -> Result<Reply, Unmade>
    requires places { HavePlaces contexts.old bus.old }
    requires one { AreOfOneHistory contexts.old timers.now bus.old }
    ensures ok { IfOk result (λ reply. (history : List Traced) → StoresStand contexts.old timers.now bus.old history → IsNext at history → Follows contexts.new timers.now bus.new history pass (Call.Publish address body options) reply) }
    ensures err { OnErr result ((history : List Traced) → StoresStand contexts.old timers.now bus.old history → StoresStand contexts.new timers.now bus.new history) }
    ensures back { IfErr result (λ unmade. unmade.call ≡ Call.Publish address body options) }
    ensures places { HavePlaces contexts.new bus.new }
    ensures owed { contexts.new.owed ≡ contexts.old.owed }
{
    if let Some(refusal) = send_refusal(contexts, bus, pass, &address, &body, &options) {
        return Ok(Reply::Refused(refusal));
    }
    match publish_on(contexts, timers, bus, at, pass, &address, &body, &options) {
        Ok(reached) => Ok(Reply::Published(List::new(reached))),
        Err(NoMemory) => Err(Unmade {
            call: Call::Publish {
                address,
                body,
                options,
            },
        }),
    }
}

// Publishes a message that is not refused, and names the consumers that accept it.
fn publish_on(
    contexts: &mut Contexts,
    timers: &Timers,
    bus: &mut Bus,
    at: EntryNo,
    pass: PassNo,
    address: &Text,
    body: &Body,
    options: &Options,
) -> Result<Vec<ConsumerId>, NoMemory>
    requires places { HavePlaces contexts.old bus.old }
    requires one { AreOfOneHistory contexts.old timers.now bus.old }
    requires deep { tree_depth body.now ≤ 100 }
    requires pairs { length options.now.headers ≤ 1024 }
    requires bytes { header_bytes options.now.headers ≤ 65536 }
    ensures ok { IfOk result (λ reached. (history : List Traced) → StoresStand contexts.old timers.now bus.old history → IsNext at history → send_refusal history pass address.now body.now options.now ≡ None → Follows contexts.new timers.now bus.new history pass (calls.Publish address.now body.now options.now) (replies.Published reached.items)) }
    ensures err { OnErr result ((history : List Traced) → StoresStand contexts.old timers.now bus.old history → StoresStand contexts.new timers.now bus.new history) }
    ensures places { HavePlaces contexts.new bus.new }
    ensures owed { contexts.new.owed ≡ contexts.old.owed }
{
    let Passage::Arrives(message) = passage_for(bus, at, address, body, options, false, true)?
    else {
        return Ok(Vec::new(bus.alloc()));
    };
    let recipients = bus.recipients(address)?;
    let parcels = addressed(bus.alloc(), &message, &recipients)?;
    let reached = names(bus.alloc(), &recipients)?;
    make_room(contexts, bus, parcels.len())?;
    bus.arrive_at(address);
    deliver_each(contexts, bus, at, parcels);
    Ok(reached)
}

// A copy of the message for each of the consumers.
fn addressed(
    alloc: Global,
    message: &Message,
    recipients: &[Recipient],
) -> Result<Vec<Parcel>, NoMemory>
    ensures { IfOk result (λ parcels. parcels.items ≡ map (parcel_for message.now) recipients.now) }
{
    let mut parcels = Vec::with_capacity(alloc, recipients.len())?;
    for recipient in recipients {
        parcels.push(Parcel {
            recipient: *recipient,
            message: copy(alloc, message)?,
        })?;
    }
    Ok(parcels)
}

// An equal message.
fn copy(alloc: Global, message: &Message) -> Result<Message, NoMemory>
    ensures { IfOk result (λ made. made ≡ message.now) }
{
    Ok(Message {
        id: message.id,
        address: message.address.copy(alloc)?,
        headers: message.headers.copy(alloc)?,
        body: message.body.copy(alloc)?,
        request: message.request,
        publish: message.publish,
    })
}

// The names of the consumers.
fn names(alloc: Global, recipients: &[Recipient]) -> Result<Vec<ConsumerId>, NoMemory>
    ensures { IfOk result (λ names. names.items ≡ map (λ (r : Recipient). r.consumer) recipients.now) }
{
    let names = recipients
        .iter()
        .map(|recipient| recipient.consumer)
        .collect(alloc)?;
    Ok(names)
}

// Gives each consumer its message: those that are ready at places from 0.
fn deliver_each(contexts: &mut Contexts, bus: &mut Bus, at: EntryNo, parcels: Vec<Parcel>)
    requires items { ready_count parcels.items ≤ contexts.old.room }
    requires tasks { length parcels.items ≤ bus.old.room }
    ensures items { contexts.new ≡ record contexts.old { waiting = contexts.old.waiting ++ parcel_items contexts.old.made at 0 parcels.items; room = contexts.new.room } }
    ensures tasks { bus.new ≡ record bus.old { tasks = bus.old.tasks ++ map parcel_task parcels.items; room = bus.new.room } }
    ensures items_room { contexts.old.room ≤ contexts.new.room + ready_count parcels.items }
    ensures tasks_room { bus.old.room ≤ bus.new.room + length parcels.items }
{
    let mut place = 0;
    for Parcel { recipient, message } in parcels {
        hand(contexts, bus, at, place, recipient, message);
        if recipient.arrive == Arrive::Ready {
            place += 1;
        }
    }
}
