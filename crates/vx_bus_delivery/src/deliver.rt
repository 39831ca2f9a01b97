//! How messages reach consumers.
ghost use Rattle.std.specs.Prelude.{◌≡◌, ◌+◌, ◌-◌, ◌^◌, ◌<◌, ◌≤◌, ◌&&◌, not, min, if◌then◌else◌, ℕ, List, [], ◌∷◌, ◌++◌, length, true, Some, OnOk};
ghost use Rattle.std.specs.Str.{bytes_eq};
ghost use Rattle.vx_ring.specs.Rings.{is_empty, consumers_at, choices_at};
ghost use Rattle.vx_call.specs.declared.reply.Task.TheVariants as tasks;
ghost use Rattle.vx_timer.specs.declared.timers.Timer.{Timer};
ghost use Rattle.vx_data.specs.declared.ids.MessageId.{MessageId};
ghost use Rattle.vx_request.specs.Stores.{given_at};
ghost use Rattle.vx_call.specs.declared.history.Traced.{Traced};
ghost use Rattle.vx_call.specs.Mailboxes.{is_ready};
ghost use Rattle.vx_call.specs.declared.reply.To.TheVariants as reached;
ghost use Rattle.vx_data.specs.declared.ids.ConsumerId.{ConsumerId};
ghost use Rattle.vx_bus_delivery.specs.Deliveries.{arrival_of, destination_in, IsAcceptedBy, PassesOn};
ghost use Rattle.vx_bus_delivery.specs.Passages.{is_sent};
ghost use Rattle.vx_bus_store.specs.Stores.{handler_in, recipient_of, ready_item, AreNamedOnce};
ghost use Rattle.vx_bus_store.specs.Stands.{StoresStand, HavePlaces, HaveRoom};
ghost use Rattle.vx_bus_delivery.specs.Deliveries.{Accepts};
ghost use Rattle.vx_bus_store.specs.declared.bus.Handler.{Handler};

use crate::passages::Passage;
use vx_bus_store::{Bus, Recipient};
use vx_call::{Task, To};
use vx_consumer::Arrive;
use vx_context::Contexts;
use vx_data::{ConsumerId, EntryNo, NoMemory, Text};
use vx_message::{ItemKind, Message};

/// Makes room for so many tasks more, beside the outcomes of the requests that wait and the messages that are held.
pub fn make_room(contexts: &mut Contexts, bus: &mut Bus, more: usize) -> Result<(), NoMemory>
    requires { HavePlaces contexts.old bus.old }
    ensures places { HavePlaces contexts.new bus.new }
    ensures same_contexts { contexts.new ≡ record contexts.old { room = contexts.new.room } }
    ensures same_bus { bus.new ≡ record bus.old { given = bus.new.given; room = bus.new.room } }
    ensures given { (id : MessageId) → given_at id bus.new.given ≡ given_at id bus.old.given }
    ensures keeps { (history : List Traced) (timers : List Timer) → StoresStand contexts.old timers bus.old history → StoresStand contexts.new timers bus.new history }
    ensures room { OnOk result (HaveRoom contexts.new bus.new more) }
{
    let tasks = bus.open_count().checked_add(more).ok_or(NoMemory)?;
    let items = bus.held_count()?.checked_add(tasks).ok_or(NoMemory)?;
    contexts.reserve(items)?;
    bus.reserve(tasks)
}

/// What a message reaches that is sent to one of the consumers at an address. It changes nothing.
pub fn destination(bus: &Bus, passage: &Passage, address: &Text) -> To
    ensures { result ≡ destination_in bus.now passage.now address.now }
{
    match (passage, bus.turn(address)) {
        (Passage::Unsent, _) => To::Stopped,
        (_, None) => To::None,
        (Passage::Unreceived, Some(_)) => To::Stopped,
        (Passage::Arrives(_), Some(consumer)) => arrival(bus, consumer),
    }
}

// What a message reaches that arrives at the consumer of this name.
fn arrival(bus: &Bus, id: ConsumerId) -> To
    ensures { result ≡ arrival_of (handler_in bus.now.consumers id) }
{
    match bus.handler(id) {
        Some(handler) => match handler.flow.next_arrival() {
            Arrive::Lost => To::Lost(handler.consumer.id),
            Arrive::Ready | Arrive::Held => To::Consumer(handler.consumer.id),
        },
        None => To::Stopped,
    }
}

/// Counts the choice of a consumer at an address, where the message is sent.
pub fn count_choice(bus: &mut Bus, passage: &Passage, address: &Text)
    ensures same { bus.new ≡ record bus.old { rings = bus.new.rings } }
    ensures consumers { (a : List ℕ) → consumers_at a bus.new.rings ≡ consumers_at a bus.old.rings }
    ensures choices { (a : List ℕ) → choices_at a bus.new.rings ≡ (if is_sent passage.now && (bytes_eq a address.now && not (is_empty (consumers_at a bus.old.rings))) then min (choices_at a bus.old.rings + 1) (2 ^ 64 - 1) else choices_at a bus.old.rings) }
{
    if !matches!(passage, Passage::Unsent) {
        bus.choose(address);
    }
}

/// Counts the choice of a consumer at an address, where the message is sent, and gives the message to that consumer,
/// where it is what the message reaches.
pub fn pass_on(
    contexts: &mut Contexts,
    bus: &mut Bus,
    at: EntryNo,
    passage: Passage,
    address: &Text,
    to: To,
)
    requires places { HavePlaces contexts.old bus.old }
    requires room { (id : ConsumerId) → to ≡ reached.Consumer id → HaveRoom contexts.old bus.old 1 }
    requires once { AreNamedOnce bus.old.consumers }
    requires accepts { (id : ConsumerId) → to ≡ reached.Consumer id → IsAcceptedBy bus.old.consumers id }
    ensures passes { PassesOn contexts.old contexts.new bus.old bus.new at passage address.now to }
    ensures places { HavePlaces contexts.new bus.new }
    ensures room { (id : ConsumerId) (more : ℕ) → to ≡ reached.Consumer id → HaveRoom contexts.old bus.old (more + 1) → HaveRoom contexts.new bus.new more }
    ensures requests { bus.new.requests ≡ bus.old.requests }
    ensures owed { contexts.new.owed ≡ contexts.old.owed }
{
    count_choice(bus, &passage, address);
    if let (To::Consumer(consumer), Passage::Arrives(message)) = (to, passage) {
        deliver(contexts, bus, at, consumer, message);
    }
}

/// Gives a message to a consumer that accepts it: it is made ready, or held.
pub fn deliver(
    contexts: &mut Contexts,
    bus: &mut Bus,
    at: EntryNo,
    consumer: ConsumerId,
    message: Message,
)
    requires room { HaveRoom contexts.old bus.old 1 }
    requires once { AreNamedOnce bus.old.consumers }
    requires accepts { IsAcceptedBy bus.old.consumers consumer }
    ensures accepts { (h : Handler) → handler_in bus.old.consumers consumer ≡ Some h → Accepts contexts.old contexts.new bus.old bus.new at (recipient_of h) message }
    ensures places { HavePlaces contexts.new bus.new }
    ensures room { (more : ℕ) → HaveRoom contexts.old bus.old (more + 1) → HaveRoom contexts.new bus.new more }
    ensures owed { contexts.new.owed ≡ contexts.old.owed }
{
    let recipient = match bus.recipient(consumer) {
        Some(recipient) => recipient,
        None => unreachable!(),
    };
    bus.arrive(consumer);
    hand(contexts, bus, at, 0, recipient, message);
}

/// Adds a message of a consumer to the tasks, and to those that wait, at this place, where it is ready.
pub fn hand(
    contexts: &mut Contexts,
    bus: &mut Bus,
    at: EntryNo,
    place: u64,
    recipient: Recipient,
    message: Message,
)
    requires items { is_ready recipient.arrive ≡ true → 0 < contexts.old.room }
    requires tasks { 0 < bus.old.room }
    ensures items { contexts.new ≡ record contexts.old { waiting = contexts.old.waiting ++ ready_item contexts.old.made at place recipient message.id; room = contexts.new.room } }
    ensures tasks { bus.new ≡ record bus.old { tasks = bus.old.tasks ++ tasks.Deliver recipient.consumer message ∷ []; room = bus.new.room } }
    ensures items_room { contexts.old.room ≤ contexts.new.room + length (ready_item contexts.old.made at place recipient message.id) }
    ensures tasks_room { bus.old.room ≤ bus.new.room + 1 }
{
    if let (Arrive::Ready, Some(context)) = (recipient.arrive, recipient.home) {
        contexts.put(
            at,
            place,
            context,
            ItemKind::Deliver(recipient.consumer, message.id),
        );
    }
    bus.put(Task::Deliver {
        consumer: recipient.consumer,
        message,
    });
}
