ghost use Rattle.std.specs.Prelude.{◌≡◌, ◌+◌, ◌<◌, ◌≤◌, ◌&&◌, ◌∷◌, [], ◌++◌, length, filter, find, not, slice_set, OnOk, OnErr, IfOk, Some, true, false};
ghost use Rattle.vx_queues.specs.Order.{is_of, AllBefore, drop_first};
ghost use Rattle.vx_queues.specs.Stores.{has_some};
ghost use Rattle.vx_queues.specs.Lanes.{first_of, queue_at, queue_of, is_ready};
ghost use Rattle.vx_queues.specs.Leaving.{is_left_out};

use crate::lanes::{come_back, comes_in, line_up, queue_of, step_aside};
use crate::tasks::{Which, remove_each};
use std::alloc::Global;
use std::marker::Model;
use vx_data::NoMemory;
use vx_items::{Links, ListId, Store};
use vx_message::Item;

/// A queue: the lane that its tasks are taken from, and whether it is busy: then none of its tasks may be taken.
#[derive(Clone, Copy)]
pub struct Queue {
    pub lane: usize,
    pub busy: bool,
}

/// A task that waits, and the number of its queue.
#[derive(Clone, Copy)]
pub struct Waiting {
    pub queue: usize,
    pub task: Item,
}

/// Queues by number, and the tasks that wait, by (entry, place). A list of its tasks is kept for each queue, and for
/// each lane a list of the queues whose tasks may be taken from it, in the order of their first tasks.
#[derive(Drop)]
pub struct Queues {
    queues: Vec<Queue>,
    items: Store<Waiting>,
    lanes: Links,
}

impl Model for Queues {
    ghost use Rattle.std.specs.Prelude.{length};
    ghost use Rattle.vx_queues.specs.Stores.{QueueStore, IsOrdered, all_values};
    ghost use Rattle.vx_queues.specs.Order.{merged};

    ghost Value = { QueueStore };

    ghost view = { λ a. record { queues = a.queues.items; lanes = length a.lanes.lists; waiting = merged (all_values a.items.lists); room = a.items.room } };

    ghost invariant = { λ a. IsOrdered a.queues.items a.items.lists a.lanes };
}

impl Queues {
    /// No queues. It takes no memory.
    pub fn new(alloc: Global) -> Queues
        ensures { result ≡ record { queues = []; lanes = 0; waiting = []; room = 0 } }
    {
        Queues {
            queues: Vec::new(alloc),
            items: Store::new(alloc),
            lanes: Links::new(alloc),
        }
    }

    /// Adds a lane.
    pub fn add_lane(&mut self) -> Result<usize, NoMemory>
        ensures number { IfOk result (λ lane. lane ≡ self.old.lanes) }
        ensures same { self.new ≡ record self.old { lanes = self.new.lanes } }
        ensures lanes { OnOk result (self.new.lanes ≡ self.old.lanes + 1) }
        ensures err { OnErr result (self.new.lanes ≡ self.old.lanes) }
    {
        Ok(self.lanes.list()?)
    }

    /// Adds a queue, which is not busy.
    pub fn add(&mut self, lane: usize) -> Result<(), NoMemory>
        requires { lane < self.old.lanes }
        ensures queues { OnOk result (self.new.queues ≡ self.old.queues ++ record { lane = lane; busy = false } ∷ []) }
        ensures lanes { self.new.lanes ≡ self.old.lanes }
        ensures waiting { self.new.waiting ≡ self.old.waiting }
        ensures room { self.new.room ≡ self.old.room }
        ensures err { OnErr result (self.new.queues ≡ self.old.queues) }
    {
        let places = self.queues.len().checked_add(1).ok_or(NoMemory)?;
        self.lanes.grow(places)?;
        self.queues.reserve(1)?;
        self.items.list()?;
        self.queues.push(Queue { lane, busy: false }).unwrap();
        Ok(())
    }

    /// Makes room for so many tasks beyond those that wait.
    pub fn reserve(&mut self, places: u32) -> Result<(), NoMemory>
        ensures same { self.new ≡ record self.old { room = self.new.room } }
        ensures kept { self.old.room ≤ self.new.room }
        ensures room { OnOk result (places ≤ self.new.room) }
    {
        self.items.reserve(places)
    }

    /// Adds a task to those that wait. It comes after them.
    pub fn put(&mut self, item: Waiting)
        requires room { 0 < self.old.room }
        requires queue { item.queue < length self.old.queues }
        requires last { AllBefore self.old.waiting item }
        ensures queues { self.new.queues ≡ self.old.queues }
        ensures lanes { self.new.lanes ≡ self.old.lanes }
        ensures waiting { self.new.waiting ≡ self.old.waiting ++ item ∷ [] }
        ensures room { self.new.room + 1 ≡ self.old.room }
    {
        let own = queue_of(&self.queues, item.queue);
        let comes = comes_in(self.items.first(ListId(item.queue)), own.busy);
        self.items.add(item, ListId(item.queue));
        line_up(&mut self.lanes, item.queue, own.lane, comes);
    }

    /// The queue of the first task that may be taken from the lane.
    pub fn next(&self, lane: usize) -> Option<usize>
        requires { lane < self.now.lanes }
        ensures { result ≡ queue_of (find (is_ready self.now.queues lane) self.now.waiting) }
    {
        self.lanes.first(lane)
    }

    /// Takes the first task of a queue, which is busy from then on.
    pub fn take(&mut self, queue: usize) -> Waiting
        requires queue { queue < length self.old.queues }
        requires waits { has_some (filter (is_of queue) self.old.waiting) ≡ true }
        requires free { (queue_at self.old.queues queue).busy ≡ false }
        ensures item { first_of (filter (is_of queue) self.old.waiting) ≡ Some result }
        ensures queues { self.new.queues ≡ slice_set self.old.queues queue (record { lane = (queue_at self.old.queues queue).lane; busy = true }) }
        ensures lanes { self.new.lanes ≡ self.old.lanes }
        ensures waiting { self.new.waiting ≡ drop_first queue self.old.waiting }
        ensures room { self.new.room ≡ self.old.room + 1 }
    {
        let first = self.items.first(ListId(queue)).unwrap();
        let own = queue_of(&self.queues, queue);
        self.queues[queue] = Queue {
            lane: own.lane,
            busy: true,
        };
        self.lanes.remove(queue);
        self.items.remove(first)
    }

    /// The queue is not busy any more: its tasks may be taken again.
    pub fn free(&mut self, queue: usize)
        requires queue { queue < length self.old.queues }
        requires busy { (queue_at self.old.queues queue).busy ≡ true }
        ensures queues { self.new.queues ≡ slice_set self.old.queues queue (record { lane = (queue_at self.old.queues queue).lane; busy = false }) }
        ensures lanes { self.new.lanes ≡ self.old.lanes }
        ensures waiting { self.new.waiting ≡ self.old.waiting }
        ensures room { self.new.room ≡ self.old.room }
    {
        come_back(&self.queues, &self.items, &mut self.lanes, queue);
        let own = queue_of(&self.queues, queue);
        self.queues[queue] = Queue {
            lane: own.lane,
            busy: false,
        };
    }

    /// Leaves out tasks of a queue.
    pub fn leave_out(&mut self, queue: usize, which: Which)
        requires queue { queue < length self.old.queues }
        ensures queues { self.new.queues ≡ self.old.queues }
        ensures lanes { self.new.lanes ≡ self.old.lanes }
        ensures waiting { self.new.waiting ≡ filter (λ (item : Waiting). not (is_of queue item && is_left_out which item)) self.old.waiting }
        ensures room { self.old.room ≤ self.new.room }
    {
        let own = queue_of(&self.queues, queue);
        step_aside(&self.queues, &self.items, &mut self.lanes, queue);
        remove_each(&mut self.items, queue, which);
        if !own.busy {
            come_back(&self.queues, &self.items, &mut self.lanes, queue);
        }
    }
}
