//! What the bus loses with contexts that leave: their consumers, and their messages and outcomes that were not taken.

ghost use Rattle.std.specs.Prelude.{◌≡◌, ◌≤◌, ℕ, true, not, ◌&&◌, if◌then◌else◌, List, filter, vec_len, vec_capacity};
ghost use Rattle.vx_data.specs.declared.ids.ConsumerId.{ConsumerId};
ghost use Rattle.std.specs.List.{list_any};
ghost use Rattle.vx_message.specs.declared.Item.{Item};
ghost use Rattle.vx_request.specs.Leaving.{has_context};
ghost use Rattle.vx_ring.specs.Rings.{is_empty, consumers_at, choices_at};
ghost use Rattle.vx_call.specs.declared.reply.Task.{Task};
ghost use Rattle.vx_bus_store.specs.declared.bus.Handler.{Handler};
ghost use Rattle.vx_bus_store.specs.Leaving.{leaves, leaves_at, is_item_of_outcome, is_task_of};

use crate::bus::{Bus, Handler, handler_of};
use vx_call::Task;
use vx_data::MessageId;
use vx_message::{Item, ItemKind};
use vx_request::Leaver;
use vx_ring::Rings;

impl Bus {
    /// Ends the consumers of the contexts that leave, and leaves out all tasks of these. `items` are all that wait for
    /// contexts. It takes no memory.
    pub fn leave(&mut self, leaver: Leaver, items: &[Item])
        ensures left { self.new ≡ record self.old { consumers = filter (λ (h : Handler). not (leaves leaver h)) self.old.consumers; rings = self.new.rings; tasks = filter (λ (task : Task). not (is_task_of leaver self.old.consumers items.now task)) self.old.tasks; room = self.new.room } }
        ensures out_of_turn { (a : List ℕ) → consumers_at a self.new.rings ≡ filter (λ (id : ConsumerId). not (leaves_at leaver self.old.consumers a id)) (consumers_at a self.old.rings) }
        ensures choices { (a : List ℕ) → (is_empty (consumers_at a self.old.rings) ≡ true → choices_at a self.old.rings ≡ 0) → choices_at a self.new.rings ≡ (if is_empty (consumers_at a self.new.rings) then 0 else choices_at a self.old.rings) }
        ensures room { self.old.room ≤ self.new.room }
    {
        leave_turns(&self.handlers, &mut self.rings, leaver);
        leave_tasks(&mut self.tasks, &self.handlers, items, leaver);
        leave_consumers(&mut self.handlers, leaver);
    }
}

// Takes the consumers that leave out of the turns at their addresses.
fn leave_turns(handlers: &Vec<Handler>, rings: &mut Rings, leaver: Leaver)
    ensures out_of_turn { (a : List ℕ) → consumers_at a rings.new ≡ filter (λ (id : ConsumerId). not (leaves_at leaver handlers.now.items a id)) (consumers_at a rings.old) }
    ensures choices { (a : List ℕ) → (is_empty (consumers_at a rings.old) ≡ true → choices_at a rings.old ≡ 0) → choices_at a rings.new ≡ (if is_empty (consumers_at a rings.new) then 0 else choices_at a rings.old) }
{
    for handler in handlers {
        if leaver.owns(handler.consumer.owner) {
            rings.remove(&handler.consumer.address, handler.consumer.id);
        }
    }
}

// Leaves out the tasks of the contexts that leave.
fn leave_tasks(tasks: &mut Vec<Task>, handlers: &Vec<Handler>, items: &[Item], leaver: Leaver)
    ensures items { tasks.new.items ≡ filter (λ (task : Task). not (is_task_of leaver handlers.now.items items.now task)) tasks.old.items }
    ensures len { vec_len tasks.new ≤ vec_len tasks.old }
    ensures capacity { vec_capacity tasks.new ≡ vec_capacity tasks.old }
{
    tasks.retain(|task| !is_task_of(task, handlers, items, leaver));
}

// Whether the task is of a context that leaves.
fn is_task_of(task: &Task, handlers: &Vec<Handler>, items: &[Item], leaver: Leaver) -> bool
    ensures { result ≡ is_task_of leaver handlers.now.items items.now task.now }
{
    match task {
        Task::Deliver {
            consumer,
            message: _,
        } => match handler_of(handlers, *consumer) {
            Some(handler) => leaver.owns(handler.consumer.owner),
            None => false,
        },
        Task::Outcome {
            request,
            outcome: _,
        } => waits(*request, items, leaver),
        _ => false,
    }
}

// Whether the outcome of the request waits for a context that leaves.
fn waits(request: MessageId, items: &[Item], leaver: Leaver) -> bool
    ensures { result ≡ list_any (λ (item : Item). is_item_of_outcome request item.kind && has_context leaver item.context) items.now }
{
    items.iter().any(|item| is_outcome_item(request, item.kind) && leaver.has(item.context))
}

// Whether it is the outcome of the request.
fn is_outcome_item(id: MessageId, kind: ItemKind) -> bool
    ensures { result ≡ is_item_of_outcome id kind }
{
    match kind {
        ItemKind::Outcome(request) => id == request,
        _ => false,
    }
}

// Leaves out the consumers that leave.
fn leave_consumers(handlers: &mut Vec<Handler>, leaver: Leaver)
    ensures { handlers.new.items ≡ filter (λ (h : Handler). not (leaves leaver h)) handlers.old.items }
{
    handlers.retain(|handler| !leaver.owns(handler.consumer.owner));
}
