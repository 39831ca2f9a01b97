//! The queues of each lane whose tasks may be taken from it, in the order of their first tasks.

ghost use Rattle.std.specs.Prelude.{◌≡◌, ◌<◌, ◌&&◌, [], length, not, is_none, slice_set, slice_index_or, Some, None, true, if◌then◌else◌};
ghost use Rattle.vx_items.specs.Lists.{total, with_before};
ghost use Rattle.vx_items.specs.Items.{number_of};
ghost use Rattle.vx_queues.specs.declared.queues.Queue.{Queue};
ghost use Rattle.vx_queues.specs.Order.{before};
ghost use Rattle.vx_queues.specs.Stores.{IsOrdered, all_values};
ghost use Rattle.vx_queues.specs.Lanes.{queue_at, head_in, stands_in, as_busy, as_free, Gap};

use crate::queues::{Queue, Waiting};
use crate::tasks::head_of;
use vx_items::{ItemId, Links, Store};

/// Puts a queue last in its lane, if it comes into it.
pub fn line_up(lanes: &mut Links, queue: usize, lane: usize, comes: bool)
    requires place { queue < lanes.old.places }
    requires lane { lane < length lanes.old.lists }
    requires new { comes ≡ true → total queue lanes.old.lists ≡ 0 }
    ensures lists { lanes.new.lists ≡ (if comes then slice_set lanes.old.lists lane (with_before None queue (slice_index_or lanes.old.lists lane [])) else lanes.old.lists) }
    ensures len { length lanes.new.lists ≡ length lanes.old.lists }
    ensures places { lanes.new.places ≡ lanes.old.places }
{
    if comes {
        lanes.insert(queue, lane, None);
    }
}

/// Whether a queue comes into its lane with a first task.
pub fn comes_in(first: Option<ItemId>, busy: bool) -> bool
    ensures { result ≡ (is_none (number_of first) && not busy) }
{
    first.is_none() && !busy
}

/// A queue, by its number.
pub fn queue_of(queues: &Vec<Queue>, queue: usize) -> Queue
    requires { queue < length queues.now.items }
    ensures { result ≡ queue_at queues.now.items queue }
{
    queues[queue]
}

/// Takes a queue out of its lane, where it stands there, as if it were busy.
pub fn step_aside(queues: &Vec<Queue>, items: &Store<Waiting>, lanes: &mut Links, queue: usize)
    requires there { queue < length queues.now.items }
    requires ordered { IsOrdered queues.now.items items.now.lists lanes.old }
    ensures aside { IsOrdered (as_busy queue queues.now.items) items.now.lists lanes.new }
    ensures len { length lanes.new.lists ≡ length lanes.old.lists }
{
    if stands(queues, items, queue) {
        lanes.remove(queue);
    }
}

// Whether a queue stands in its lane: it is not busy, and has a task.
fn stands(queues: &Vec<Queue>, items: &Store<Waiting>, queue: usize) -> bool
    requires queue { queue < length queues.now.items }
    requires list { queue < length items.now.lists }
    ensures { result ≡ stands_in queues.now.items (all_values items.now.lists) queue }
{
    !queue_of(queues, queue).busy && head_of(items, queue).is_some()
}

/// Puts a queue that stands aside into its lane, at the place of its first task, if it has one.
pub fn come_back(queues: &Vec<Queue>, items: &Store<Waiting>, lanes: &mut Links, queue: usize)
    requires there { queue < length queues.now.items }
    requires aside { IsOrdered (as_busy queue queues.now.items) items.now.lists lanes.old }
    ensures back { IsOrdered (as_free queue queues.now.items) items.now.lists lanes.new }
    ensures len { length lanes.new.lists ≡ length lanes.old.lists }
{
    let own = queue_of(queues, queue);
    if let Some(first) = head_of(items, queue) {
        let later = first_later(queues, items, lanes, own.lane, queue, first);
        lanes.insert(queue, own.lane, later);
    }
}

// Whether the first comes before the second.
fn comes_before(a: &Waiting, b: &Waiting) -> bool
    ensures { result ≡ before a.now b.now }
{
    a.task.entry.0 < b.task.entry.0 || (a.task.entry == b.task.entry && a.task.place < b.task.place)
}

// The first queue of a lane whose first task comes behind that of one that stands aside. It goes past those alone whose
// tasks come before it.
fn first_later(
    queues: &Vec<Queue>,
    items: &Store<Waiting>,
    lanes: &Links,
    lane: usize,
    queue: usize,
    first: Waiting,
) -> Option<usize>
    requires there { queue < length queues.now.items }
    requires lane { lane < length lanes.now.lists }
    requires aside { IsOrdered (as_busy queue queues.now.items) items.now.lists lanes.now }
    requires first { head_in (all_values items.now.lists) queue ≡ Some first }
    ensures { Gap (head_in (all_values items.now.lists)) (slice_index_or lanes.now.lists lane []) queue result }
{
    let mut next = lanes.first(lane);
    for _step in 0..queues.len() {
        let Some(other) = next else {
            return None;
        };
        if is_behind(items, other, &first) {
            return next;
        }
        next = lanes.next(other);
    }
    None
}

// Whether the first task of a queue comes behind this one.
fn is_behind(items: &Store<Waiting>, queue: usize, first: &Waiting) -> bool
    requires { queue < length items.now.lists }
    ensures { (head : Waiting) → head_in (all_values items.now.lists) queue ≡ Some head → result ≡ before first.now head }
{
    match head_of(items, queue) {
        Some(head) => comes_before(first, &head),
        None => false,
    }
}
