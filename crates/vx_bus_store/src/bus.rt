ghost use Rattle.std.specs.Prelude.{◌≡◌, ◌+◌, ◌-◌, ◌%◌, ◌^◌, ◌&&◌, ◌<◌, ◌≤◌, ℕ, true, not, min, if◌then◌else◌, List, [], ◌∷◌, ◌++◌, length, map, filter, find, position, slice_get, slice_index_or, is_some, Some, None, vec_len, vec_capacity, IfOk, OnOk, OnErr, IfErr};
ghost use Rattle.std.specs.Option.{option_copied, option_map, option_or, option_to_list};
ghost use Rattle.std.specs.Str.{bytes_eq};
ghost use Rattle.vx_data.specs.declared.ids.MessageId.{MessageId};
ghost use Rattle.vx_message.specs.declared.Given.{Given};
ghost use Rattle.vx_message.specs.declared.ItemKind.TheVariants as kinds;
ghost use Rattle.vx_ring.specs.Rings.{is_empty, consumers_at, choices_at};
ghost use Rattle.vx_request.specs.declared.requests.OpenRequest.{OpenRequest};
ghost use Rattle.vx_request.specs.Leaving.{ends_with, fails_with};
ghost use Rattle.vx_request.specs.Stores.{is_request, ended_at, given_at};
ghost use Rattle.vx_bus_store.specs.declared.bus.Handler.{Handler};
ghost use Rattle.vx_call.specs.declared.reply.Task.{Task};
ghost use Rattle.vx_data.specs.Ids.{same_message, same_consumer};
ghost use Rattle.vx_consumer.specs.Flows.{fresh};
ghost use Rattle.vx_call.specs.Mailboxes.{is_accepted};
ghost use Rattle.vx_call.specs.Given.{given_by_task};
ghost use Rattle.vx_call.specs.Items.{is_for};
ghost use Rattle.vx_call.specs.Owners.{context_owning};
ghost use Rattle.vx_bus_store.specs.Stores.{is_of_kind, is_kept_by_bus, has_task, without_first, recipient_of, asker_in, home_in, names, handler_in, is_handler_at, next_arrival, IsEmptyBus};

use std::alloc::Global;
use std::marker::Model;
use vx_call::{Consumer, Task};
use vx_consumer::{Arrive, Flow};
use vx_data::{ConsumerId, ContextId, EntryNo, MessageId, NoMemory, Text};
use vx_message::{Given, ItemKind, Outcome, Owner};
use vx_request::{GivenOut, Leaver, OpenRequest, Requests, ends_with, fails_with};
use vx_ring::Rings;
use vx_rules::{Codecs, Rules};

/// A consumer that a message is for, the context whose handler gets it, none where a connection's does, and what becomes of
/// the message there.
#[derive(Clone, Copy)]
pub struct Recipient {
    pub consumer: ConsumerId,
    pub home: Option<ContextId>,
    pub arrive: Arrive,
}

/// A consumer, and what becomes of the messages that reach it.
#[derive(Drop)]
pub struct Handler {
    pub consumer: Consumer,
    pub flow: Flow,
}

/// The consumers, whose turn it is at each address, the messages and outcomes that were not taken, the requests, the
/// messages that were given out, the codecs and the rules: of each side at most [`MAX_RULES`], none of which adds more than
/// [`MAX_ADDED_BYTES`]. Each task that was not taken, and each that is yet to come and
/// for which a place was reserved, can be put, taken and given out without memory.
#[derive(Drop)]
pub struct Bus {
    pub(crate) handlers: Vec<Handler>,
    pub(crate) rings: Rings,
    pub(crate) tasks: Vec<Task>,
    requests: Requests,
    given: GivenOut,
    pub(crate) codecs: Codecs,
    pub(crate) rules: Rules,
    alloc: Global,
}

impl Model for Bus {
    ghost use Rattle.std.specs.Prelude.{◌-◌, ◌≤◌, min, vec_len, vec_capacity};
    ghost use Rattle.vx_bus_store.specs.Stores.{BusStore};
    ghost use Rattle.vx_bus_store.specs.Limits.{AreWithinLimits};

    ghost Value = { BusStore };

    ghost use Rattle.std.specs.Coded.{codes};
    ghost use Rattle.vx_data.specs.contracts.body.Body as body;

    ghost coded = { Prim.hlevel (codes, body.the_row.coded) };

    ghost view = { λ a. record {
      consumers = a.handlers.items;
      rings = a.rings;
      tasks = a.tasks.items;
      requests = a.requests;
      given = a.given.given;
      codecs = a.codecs.codecs;
      rules = a.rules.rules;
      room = min (vec_capacity a.tasks - vec_len a.tasks) (a.given.room - vec_len a.tasks);
    } };

    ghost invariant = { λ a. (vec_len a.tasks ≤ a.given.room) × AreWithinLimits a.rules.rules };
}

impl Bus {
    /// A bus without consumers. It takes no memory.
    pub fn new(alloc: Global) -> Bus
        ensures { IsEmptyBus result }
    {
        Bus {
            handlers: Vec::new(alloc),
            rings: Rings::new(alloc),
            tasks: Vec::new(alloc),
            requests: Requests::new(alloc),
            given: GivenOut::new(alloc),
            codecs: Codecs::new(alloc),
            rules: Rules::new(alloc),
            alloc,
        }
    }

    /// The memory that the bus takes from.
    pub fn alloc(&self) -> Global {
        self.alloc
    }

    // ## Consumers

    /// The live consumer of this name, with its flow.
    pub fn handler(&self, id: ConsumerId) -> Option<&Handler>
        ensures { option_copied result ≡ handler_in self.now.consumers id }
    {
        handler_of(&self.handlers, id)
    }

    /// The live consumer of this name, for a message that arrives now.
    pub fn recipient(&self, id: ConsumerId) -> Option<Recipient>
        ensures { result ≡ option_map recipient_of (handler_in self.now.consumers id) }
    {
        handler_of(&self.handlers, id).map(recipient_of)
    }

    /// The context whose handler a consumer's messages are for, none where it is a connection's or is not there.
    pub fn home(&self, id: ConsumerId) -> Option<ContextId>
        ensures { result ≡ home_in (handler_in self.now.consumers id) }
    {
        match handler_of(&self.handlers, id) {
            Some(handler) => home_of(handler.consumer.owner),
            None => None,
        }
    }

    /// The consumers at an address that would accept a message now, in order of registration.
    pub fn recipients(&self, address: &Text) -> Result<Vec<Recipient>, NoMemory>
        ensures { IfOk result (λ found. found.items ≡ map recipient_of (filter (λ (h : Handler). is_accepted (next_arrival h)) (filter (is_handler_at address.now) self.now.consumers))) }
    {
        recipients_at(self.alloc, &self.handlers, address)
    }

    /// Adds a consumer. Without memory it comes back.
    pub fn add(&mut self, consumer: Consumer) -> Result<(), Consumer>
        ensures added { OnOk result (self.new ≡ record self.old { consumers = self.old.consumers ++ record { consumer = consumer; flow = fresh consumer.limit } ∷ []; rings = self.new.rings }) }
        ensures in_turn { OnOk result ((a : List ℕ) → consumers_at a self.new.rings ≡ (if bytes_eq a consumer.address then consumers_at a self.old.rings ++ consumer.id ∷ [] else consumers_at a self.old.rings)) }
        ensures choices { (a : List ℕ) → choices_at a self.new.rings ≡ choices_at a self.old.rings }
        ensures err { OnErr result (self.new ≡ record self.old { rings = self.new.rings }) }
        ensures err_rings { OnErr result ((a : List ℕ) → consumers_at a self.new.rings ≡ consumers_at a self.old.rings) }
        ensures back { IfErr result (λ given_back. given_back ≡ consumer) }
    {
        if self.handlers.reserve(1).is_err()
            || self.rings.add(&consumer.address, consumer.id).is_err()
        {
            return Err(consumer);
        }
        let flow = Flow::new(consumer.limit);
        self.handlers.push(Handler { consumer, flow }).unwrap();
        Ok(())
    }

    /// Ends a consumer, and the messages that it accepted and that were not taken.
    pub fn remove(&mut self, id: ConsumerId)
        ensures left { self.new ≡ record self.old { consumers = filter (λ (h : Handler). not (names id h)) self.old.consumers; rings = self.new.rings; tasks = filter (λ (task : Task). not (is_for id task)) self.old.tasks; room = self.new.room } }
        ensures out_of_turn { (h : Handler) → handler_in self.old.consumers id ≡ Some h → (a : List ℕ) → consumers_at a self.new.rings ≡ (if bytes_eq a h.consumer.address then filter (λ other. not (same_consumer id other)) (consumers_at a self.old.rings) else consumers_at a self.old.rings) }
        ensures choices { (h : Handler) → handler_in self.old.consumers id ≡ Some h → (a : List ℕ) → choices_at a self.new.rings ≡ (if is_empty (consumers_at a self.new.rings) then 0 else choices_at a self.old.rings) }
        ensures room { self.old.room ≤ self.new.room }
    {
        leave_turns(&self.handlers, &mut self.rings, id);
        leave_out_consumer(&mut self.handlers, id);
        leave_out_tasks(&mut self.tasks, id);
    }

    /// The consumer whose turn it is at an address, and counts the choice.
    pub fn choose(&mut self, address: &Text) -> Option<ConsumerId>
        ensures chosen { result ≡ slice_get (consumers_at address.now self.old.rings) (choices_at address.now self.old.rings % length (consumers_at address.now self.old.rings)) }
        ensures same { self.new ≡ record self.old { rings = self.new.rings } }
        ensures consumers { (a : List ℕ) → consumers_at a self.new.rings ≡ consumers_at a self.old.rings }
        ensures choices { (a : List ℕ) → choices_at a self.new.rings ≡ (if bytes_eq a address.now && not (is_empty (consumers_at a self.old.rings)) then min (choices_at a self.old.rings + 1) (2 ^ 64 - 1) else choices_at a self.old.rings) }
    {
        self.rings.choose(address)
    }

    /// The consumer whose turn it is at an address. The choice is not counted.
    pub fn turn(&self, address: &Text) -> Option<ConsumerId>
        ensures { result ≡ slice_get (consumers_at address.now self.now.rings) (choices_at address.now self.now.rings % length (consumers_at address.now self.now.rings)) }
    {
        self.rings.turn(address)
    }

    // ## Tasks

    /// The tasks that were not taken, in the order in which they were made.
    pub fn tasks(&self) -> &[Task]
        ensures { result.now ≡ self.now.tasks }
    {
        &self.tasks
    }

    /// Makes room for so many tasks beyond those that wait, each until it is taken.
    pub fn reserve(&mut self, places: usize) -> Result<(), NoMemory>
        ensures same { self.new ≡ record self.old { given = self.new.given; room = self.new.room } }
        ensures given { (id : MessageId) → given_at id self.new.given ≡ given_at id self.old.given }
        ensures kept { self.old.room ≤ self.new.room }
        ensures room { OnOk result (places ≤ self.new.room) }
    {
        let tasks = self.tasks.len().checked_add(places).ok_or(NoMemory)?;
        self.tasks.reserve(places)?;
        self.given.reserve(tasks)
    }

    /// Adds a task to those that wait.
    pub fn put(&mut self, task: Task)
        requires { 0 < self.old.room }
        ensures added { self.new ≡ record self.old { tasks = self.old.tasks ++ task ∷ []; room = self.new.room } }
        ensures room { self.old.room ≤ self.new.room + 1 }
    {
        self.tasks.push(task).unwrap();
    }

    /// Takes a task that waits, for a handler of the context, which is given the message that it may reply to.
    pub fn take(&mut self, kind: ItemKind, context: ContextId) -> Task
        requires kept { is_kept_by_bus kind ≡ true }
        requires there { has_task kind self.old.tasks ≡ true }
        ensures task { find (is_of_kind kind) self.old.tasks ≡ Some result }
        ensures taken { self.new ≡ record self.old { tasks = without_first (is_of_kind kind) self.old.tasks; given = self.new.given; room = self.new.room } }
        ensures given { (id : MessageId) → given_at id self.new.given ≡ option_or (given_at id self.old.given) (find (λ (g : Given). same_message id g.id) (given_by_task (Some context) result)) }
        ensures room { self.old.room ≤ self.new.room }
    {
        let task = take_task(&mut self.tasks, kind);
        if let Some(given) = given_by(&task, context) {
            self.given.give(given);
        }
        task
    }

    /// How a message was given out, if it was.
    pub fn given(&self, id: MessageId) -> Option<Given>
        ensures { result ≡ given_at id self.now.given }
    {
        self.given.given(id)
    }

    // ## Requests

    /// How many requests wait.
    pub fn open_count(&self) -> usize
        ensures { result ≡ length self.now.requests.waiting }
    {
        self.requests.waiting().len()
    }

    /// The request at a place among those that wait.
    pub fn open_at(&self, index: usize) -> OpenRequest
        requires { index < length self.now.requests.waiting }
        ensures { result ≡ slice_index_or self.now.requests.waiting index result }
    {
        self.requests.waiting()[index]
    }

    /// The context that waits for the outcome of a request, where it is open.
    pub fn asker(&self, id: MessageId) -> Option<ContextId>
        ensures { result ≡ asker_in (find (is_request id) self.now.requests.waiting) }
    {
        match self.requests.asker(id) {
            Some(asker) => home_of(asker),
            None => None,
        }
    }

    /// Whether a request ends with what leaves.
    pub fn ends_with(&self, row: &OpenRequest, leaver: Leaver) -> bool
        ensures { result ≡ ends_with leaver self.now.given row.now }
    {
        ends_with(row, leaver, &self.given)
    }

    /// Whether a request ends with what leaves, and its asker stays.
    pub fn fails_with(&self, row: &OpenRequest, leaver: Leaver) -> bool
        ensures { result ≡ fails_with leaver self.now.given row.now }
    {
        fails_with(row, leaver, &self.given)
    }

    /// Makes room for one more request.
    pub fn reserve_request(&mut self) -> Result<(), NoMemory>
        ensures same { self.new ≡ record self.old { requests = record self.old.requests { room = self.new.requests.room } } }
        ensures room { OnOk result (0 < self.new.requests.room) }
    {
        self.requests.reserve()
    }

    /// Opens a request, for which there is room.
    pub fn open(&mut self, row: OpenRequest)
        requires { 0 < self.old.requests.room }
        ensures { self.new ≡ record self.old { requests = record self.old.requests { waiting = self.old.requests.waiting ++ row ∷ []; room = self.new.requests.room } } }
    {
        self.requests.open(row).unwrap();
    }

    /// Ends a request, and says who asked, if it was open.
    pub fn settle(&mut self, id: MessageId, at: EntryNo) -> Option<ContextId>
        ensures asker { result ≡ asker_in (find (is_request id) self.old.requests.waiting) }
        ensures same { self.new ≡ record self.old { requests = self.new.requests } }
        ensures left { self.new.requests.waiting ≡ filter (λ row. not (is_request id row)) self.old.requests.waiting }
        ensures ended { (m : MessageId) → ended_at m self.new.requests.ended ≡ option_or (ended_at m self.old.requests.ended) (if same_message m id && is_some (find (is_request id) self.old.requests.waiting) then Some at else None) }
        ensures room { self.old.requests.room ≤ self.new.requests.room }
    {
        match self.requests.settle(id, at) {
            Some(asker) => home_of(asker),
            None => None,
        }
    }

    /// Ends a request that reached nobody.
    pub fn end_unheard(&mut self, id: MessageId, at: EntryNo) -> Result<(), NoMemory>
        ensures same { self.new ≡ record self.old { requests = self.new.requests } }
        ensures waiting { self.new.requests.waiting ≡ self.old.requests.waiting }
        ensures ok { OnOk result ((m : MessageId) → ended_at m self.new.requests.ended ≡ option_or (ended_at m self.old.requests.ended) (if same_message m id then Some at else None)) }
        ensures err { OnErr result ((m : MessageId) → ended_at m self.new.requests.ended ≡ ended_at m self.old.requests.ended) }
    {
        self.requests.end_unheard(id, at)
    }

    /// Ends the requests that end with what leaves.
    pub fn end_with(&mut self, leaver: Leaver, at: EntryNo)
        ensures same { self.new ≡ record self.old { requests = self.new.requests } }
        ensures left { self.new.requests.waiting ≡ filter (λ row. not (ends_with leaver self.old.given row)) self.old.requests.waiting }
        ensures ended { (m : MessageId) → ended_at m self.new.requests.ended ≡ option_or (ended_at m self.old.requests.ended) (option_map (λ _. at) (find (is_request m) (filter (ends_with leaver self.old.given) self.old.requests.waiting))) }
    {
        self.requests.end_with(leaver, &self.given, at);
    }

    /// The entry at which a request ended, if it did.
    pub fn settled(&self, id: MessageId) -> Option<EntryNo>
        ensures { result ≡ ended_at id self.now.requests.ended }
    {
        self.requests.settled(id)
    }
}

// The consumers at an address that would accept a message now, in order of registration.
fn recipients_at(
    alloc: Global,
    handlers: &Vec<Handler>,
    address: &Text,
) -> Result<Vec<Recipient>, NoMemory>
    ensures { IfOk result (λ found. found.items ≡ map recipient_of (filter (λ (h : Handler). is_accepted (next_arrival h)) (filter (is_handler_at address.now) handlers.now.items))) }
{
    let mut found = Vec::new(alloc);
    for handler in handlers {
        if handler.consumer.address.is(address) && accepts(handler) {
            found.push(recipient_of(handler))?;
        }
    }
    Ok(found)
}

// The consumer of a handler, for a message that arrives now.
fn recipient_of(handler: &Handler) -> Recipient
    ensures { result ≡ recipient_of handler.now }
{
    Recipient {
        consumer: handler.consumer.id,
        home: home_of(handler.consumer.owner),
        arrive: handler.flow.next_arrival(),
    }
}

/// The context that owns, if it is no connection.
pub fn home_of(owner: Owner) -> Option<ContextId>
    ensures { result ≡ context_owning owner }
{
    match owner {
        Owner::Context(context) => Some(context),
        Owner::Pass(_) | Owner::Conn(_) => None,
    }
}

// Whether a message that arrives now is made ready or held.
fn accepts(handler: &Handler) -> bool
    ensures { result ≡ is_accepted (next_arrival handler.now) }
{
    handler.flow.next_arrival() != Arrive::Lost
}

// Takes a consumer out of the turns at its address.
fn leave_turns(handlers: &Vec<Handler>, rings: &mut Rings, id: ConsumerId)
    ensures out_of_turn { (h : Handler) → handler_in handlers.now.items id ≡ Some h → (a : List ℕ) → consumers_at a rings.new ≡ (if bytes_eq a h.consumer.address then filter (λ other. not (same_consumer id other)) (consumers_at a rings.old) else consumers_at a rings.old) }
    ensures choices { (h : Handler) → handler_in handlers.now.items id ≡ Some h → (a : List ℕ) → choices_at a rings.new ≡ (if is_empty (consumers_at a rings.new) then 0 else choices_at a rings.old) }
{
    if let Some(handler) = handler_of(handlers, id) {
        rings.remove(&handler.consumer.address, id);
    }
}

// The handler of this name.
pub(crate) fn handler_of(handlers: &Vec<Handler>, id: ConsumerId) -> Option<&Handler>
    ensures { option_copied result ≡ handler_in handlers.now.items id }
{
    handlers.iter().find(|handler| id == handler.consumer.id)
}

// Leaves out a consumer.
fn leave_out_consumer(handlers: &mut Vec<Handler>, id: ConsumerId)
    ensures { handlers.new.items ≡ filter (λ (h : Handler). not (names id h)) handlers.old.items }
{
    handlers.retain(|handler| id != handler.consumer.id);
}

/// Whether it is a message for the consumer.
pub fn is_for(id: ConsumerId, task: &Task) -> bool
    ensures { result ≡ is_for id task.now }
{
    match task {
        Task::Deliver {
            consumer,
            message: _,
        } => id == *consumer,
        _ => false,
    }
}

// Leaves out the messages for a consumer.
fn leave_out_tasks(tasks: &mut Vec<Task>, id: ConsumerId)
    ensures items { tasks.new.items ≡ filter (λ (task : Task). not (is_for id task)) tasks.old.items }
    ensures len { vec_len tasks.new ≤ vec_len tasks.old }
    ensures capacity { vec_capacity tasks.new ≡ vec_capacity tasks.old }
{
    tasks.retain(|task| !is_for(id, task));
}

// Whether the task is this message for the consumer.
fn is_delivery(id: ConsumerId, received: MessageId, task: &Task) -> bool
    ensures { result ≡ is_of_kind (kinds.Deliver id received) task.now }
{
    match task {
        Task::Deliver { consumer, message } => id == *consumer && received == message.id,
        _ => false,
    }
}

// Whether the task is the outcome of the request.
fn is_outcome(id: MessageId, task: &Task) -> bool
    ensures { result ≡ is_of_kind (kinds.Outcome id) task.now }
{
    match task {
        Task::Outcome {
            request,
            outcome: _,
        } => id == *request,
        _ => false,
    }
}

// The place of the first task of this kind.
fn place_of(tasks: &Vec<Task>, kind: ItemKind) -> Option<usize>
    requires { is_kept_by_bus kind ≡ true }
    ensures { result ≡ position (is_of_kind kind) tasks.now.items }
{
    match kind {
        ItemKind::Deliver(consumer, id) => tasks
            .iter()
            .position(|task| is_delivery(consumer, id, task)),
        ItemKind::Outcome(id) => tasks.iter().position(|task| is_outcome(id, task)),
        _ => unreachable!(),
    }
}

// Takes the first task of this kind.
fn take_task(tasks: &mut Vec<Task>, kind: ItemKind) -> Task
    requires kept { is_kept_by_bus kind ≡ true }
    requires there { has_task kind tasks.old.items ≡ true }
    ensures task { find (is_of_kind kind) tasks.old.items ≡ Some result }
    ensures taken { tasks.new.items ≡ without_first (is_of_kind kind) tasks.old.items }
    ensures len { vec_len tasks.new + 1 ≡ vec_len tasks.old }
    ensures capacity { vec_capacity tasks.new ≡ vec_capacity tasks.old }
{
    match place_of(tasks, kind) {
        Some(place) => tasks.remove(place),
        None => unreachable!(),
    }
}

// The message that a handler of the context may reply to, once it is given the task.
fn given_by(task: &Task, context: ContextId) -> Option<Given>
    ensures { option_to_list result ≡ given_by_task (Some context) task.now }
{
    match task {
        Task::Deliver {
            consumer: _,
            message,
        } => Some(Given {
            id: message.id,
            receiver: Some(context),
            request: message.request,
        }),
        Task::Outcome {
            request: _,
            outcome: Outcome::Ok {
                headers: _,
                body: _,
                again: Some(id),
            },
        } => Some(Given {
            id: *id,
            receiver: Some(context),
            request: true,
        }),
        _ => None,
    }
}
