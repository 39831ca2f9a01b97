//! The flows of consumers: which of their messages are ready, and which are held.
ghost use Rattle.std.specs.Prelude.{◌≡◌, ◌-◌, length, map, filter, IfOk};
ghost use Rattle.vx_consumer.specs.Flows.{Counted, resumed, fetched, stopped};
ghost use Rattle.vx_call.specs.Items.{is_for};
ghost use Rattle.vx_bus_store.specs.Stores.{changed, changed_at, arrived, held_in};
ghost use Rattle.vx_bus_store.specs.FlowChanges.{flow_after};

use crate::bus::{Bus, Handler, is_for};
use vx_call::Task;
use vx_consumer::Flow;
use vx_data::{ConsumerId, NoMemory, Text};

/// What is done to the flow of a consumer.
#[derive(Clone, Copy)]
enum Change {
    /// A message arrives.
    Arrive,
    /// Of so many messages that were not taken, those that are ready are held again, and there is no more room.
    Pause(u64),
    /// All that are held are freed, and there is room without bound.
    Resume,
    /// There is room for so many more.
    Fetch(u32),
}

impl Bus {
    /// How many messages are held for all consumers together. `NoMemory` comes where they are 2^64 or more.
    pub fn held_count(&self) -> Result<usize, NoMemory>
        ensures { IfOk result (λ count. count ≡ held_in self.now.consumers) }
    {
        held_count(&self.handlers)
    }

    /// How many messages of a consumer were accepted and not taken.
    pub fn message_count(&self, id: ConsumerId) -> usize
        ensures { result ≡ length (filter (is_for id) self.now.tasks) }
    {
        message_count(&self.tasks, id)
    }

    /// A message arrives at a consumer.
    pub fn arrive(&mut self, id: ConsumerId)
        ensures { self.new ≡ record self.old { consumers = map (changed id arrived) self.old.consumers } }
    {
        change_flow(&mut self.handlers, id, Change::Arrive);
    }

    /// A message arrives at each consumer at an address.
    pub fn arrive_at(&mut self, address: &Text)
        ensures { self.new ≡ record self.old { consumers = map (changed_at address.now arrived) self.old.consumers } }
    {
        arrive_at(&mut self.handlers, address);
    }

    /// Holds again what is ready for a consumer and was not taken, and leaves no room.
    pub fn pause(&mut self, id: ConsumerId)
        ensures { self.new ≡ record self.old { consumers = map (changed id (λ (flow : Counted). stopped (length (filter (is_for id) self.old.tasks) - flow.held) flow)) self.old.consumers } }
    {
        let untaken = message_count(&self.tasks, id) as u64;
        change_flow(&mut self.handlers, id, Change::Pause(untaken));
    }

    /// Makes room without bound for the messages of a consumer.
    pub fn resume(&mut self, id: ConsumerId)
        ensures { self.new ≡ record self.old { consumers = map (changed id resumed) self.old.consumers } }
    {
        change_flow(&mut self.handlers, id, Change::Resume);
    }

    /// Makes room for so many more messages of a consumer.
    pub fn fetch(&mut self, id: ConsumerId, count: u32)
        ensures { self.new ≡ record self.old { consumers = map (changed id (fetched count)) self.old.consumers } }
    {
        change_flow(&mut self.handlers, id, Change::Fetch(count));
    }
}

fn held_count(handlers: &Vec<Handler>) -> Result<usize, NoMemory>
    ensures { IfOk result (λ count. count ≡ held_in handlers.now.items) }
{
    let mut count: usize = 0;
    for handler in handlers {
        let held = handler.flow.held() as usize;
        count = count.checked_add(held).ok_or(NoMemory)?;
    }
    Ok(count)
}

fn message_count(tasks: &Vec<Task>, id: ConsumerId) -> usize
    ensures { result ≡ length (filter (is_for id) tasks.now.items) }
{
    tasks.iter().filter(|task| is_for(id, task)).count()
}

// Changes the flow of a consumer.
fn change_flow(handlers: &mut Vec<Handler>, id: ConsumerId, change: Change)
    ensures { handlers.new.items ≡ map (changed id (flow_after change)) handlers.old.items }
{
    for handler in handlers.iter_mut() {
        if id == handler.consumer.id {
            apply(&mut handler.flow, change);
        }
    }
}

// Changes a flow.
fn apply(flow: &mut Flow, change: Change)
    ensures { flow.new ≡ flow_after change flow.old }
{
    match change {
        Change::Arrive => {
            flow.arrive();
        }
        Change::Pause(untaken) => flow.pause(untaken.saturating_sub(flow.held())),
        Change::Resume => {
            flow.resume();
        }
        Change::Fetch(count) => {
            flow.fetch(count);
        }
    }
}

fn arrive_at(handlers: &mut Vec<Handler>, address: &Text)
    ensures { handlers.new.items ≡ map (changed_at address.now arrived) handlers.old.items }
{
    for handler in handlers.iter_mut() {
        if handler.consumer.address.is(address) {
            handler.flow.arrive();
        }
    }
}
