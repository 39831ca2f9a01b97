//! The tasks of one queue, in order.

ghost use Rattle.std.specs.Prelude.{◌≡◌, ◌<◌, ◌≤◌, ◌++◌, ◌∷◌, [], length, not, filter, slice_set, slice_index_or, List, IsSome, ℕ};
ghost use Rattle.vx_items.specs.Items.{Entry, value_at};
ghost use Rattle.vx_queues.specs.Stores.{all_values, values};
ghost use Rattle.vx_queues.specs.Lanes.{head_in};
ghost use Rattle.vx_queues.specs.Leaving.{is_left_out};

use crate::queues::Waiting;
use std::marker::Brand;
use std::sync::ledger::{Blank, Ledger};
use vx_data::ConsumerId;
use vx_items::{ItemId, ListId, Steps, Store};
use vx_message::ItemKind;

/// Which tasks of a queue are left out.
#[derive(Clone, Copy)]
pub enum Which {
    All,
    /// The messages for a consumer.
    For(ConsumerId),
}

// The task of an item.
fn task_at(items: &Store<Waiting>, item: ItemId) -> Waiting
    requires { IsSome (value_at items.now.lists item.0) }
    ensures { (list : ℕ) (before after : List (Entry Waiting)) (task : Waiting) → slice_index_or items.now.lists list [] ≡ before ++ record { id = item.0; value = task } ∷ after → result ≡ task }
{
    looked_at::<Brand>(items, item, Blank::new(1))
}

// The task of an item, whose steps are counted for nobody.
fn looked_at<L: Ledger>(items: &Store<Waiting>, item: ItemId, blank: Blank) -> Waiting
    requires item { IsSome (value_at items.now.lists item.0) }
    requires name { blank.name ≡ L.name }
    requires parts { blank.parts ≡ L.parts }
    requires some { L.parts ≡ 1 }
    ensures { (list : ℕ) (before after : List (Entry Waiting)) (task : Waiting) → slice_index_or items.now.lists list [] ≡ before ++ record { id = item.0; value = task } ∷ after → result ≡ task }
{
    let mut steps: Steps<L> = Steps::new(blank);
    *items.look(item, &mut steps)
}

/// The first task of a queue.
pub fn head_of(items: &Store<Waiting>, queue: usize) -> Option<Waiting>
    requires { queue < length items.now.lists }
    ensures { result ≡ head_in (all_values items.now.lists) queue }
{
    match items.first(ListId(queue)) {
        Some(first) => Some(task_at(items, first)),
        None => None,
    }
}

// Whether a task is one of those.
fn is_left_out(which: Which, task: &Waiting) -> bool
    ensures { result ≡ is_left_out which task.now }
{
    match (which, task.task.kind) {
        (Which::All, _) => true,
        (Which::For(consumer), ItemKind::Deliver(other, _)) => consumer == other,
        (Which::For(_), _) => false,
    }
}

/// Takes the tasks of a queue out that are left out.
pub fn remove_each(items: &mut Store<Waiting>, queue: usize, which: Which)
    requires { queue < length items.old.lists }
    ensures lists { all_values items.new.lists ≡ slice_set (all_values items.old.lists) queue (filter (λ task. not (is_left_out which task)) (values (slice_index_or items.old.lists queue []))) }
    ensures len { length items.new.lists ≡ length items.old.lists }
    ensures room { items.old.room ≤ items.new.room }
{
    let count = items.count();
    let mut rest = items.first(ListId(queue));
    for _step in 0..count {
        let Some(item) = rest else {
            return;
        };
        rest = items.next(item);
        if is_left_out(which, &task_at(items, item)) {
            items.remove(item);
        }
    }
}
