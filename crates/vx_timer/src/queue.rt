//! Timers in order, each as an item of one list.

ghost use Rattle.std.specs.Prelude.{◌≡◌, ◌+◌, ◌<◌, ℕ, List, [], ◌∷◌, ◌++◌, true, not, filter, length, slice_index_or, Some, IsSome, IfSome, IfNone, OnOk};
ghost use Rattle.std.specs.List.{list_any};
ghost use Rattle.vx_items.specs.Items.{Entry, number_of, value_at};
ghost use Rattle.vx_timer.specs.declared.timers.Timer.{Timer};
ghost use Rattle.vx_timer.specs.Order.{comes_before, is_named, are_in_order};
ghost use Rattle.vx_timer.specs.Queued.{timers_in, Gap, Puts, IsFirst};

use crate::timers::Timer;
use std::alloc::Global;
use std::marker::{Brand, Model};
use std::sync::ledger::{Blank, Ledger};
use vx_data::{EntryNo, NoMemory};
use vx_items::{ItemId, ListId, Steps, Store};

/// Timers in order. Contracts see them in order, each with its item's number, and for how many more there is room.
#[derive(Drop)]
pub struct Queue {
    store: Store<Timer>,
    list: Option<ListId>,
}

impl Model for Queue {
    ghost use Rattle.vx_timer.specs.Queued.{Queued, IsListed, entries_of, room_of};

    ghost Value = { Queued };

    ghost view = { λ q. record { entries = entries_of q.list q.store.lists; room = room_of q.list q.store.room } };

    ghost invariant = { λ q. IsListed q.list q.store.lists };
}

impl Queue {
    /// No timers. It takes no memory.
    pub fn new(alloc: Global) -> Queue
        ensures { result ≡ record { entries = []; room = 0 } }
    {
        Queue {
            store: Store::new(alloc),
            list: None,
        }
    }

    /// Makes room for one more timer.
    pub fn reserve(&mut self) -> Result<(), NoMemory>
        ensures entries { self.new.entries ≡ self.old.entries }
        ensures room { OnOk result (0 < self.new.room) }
    {
        if self.list.is_none() {
            self.list = Some(self.store.list()?);
        }
        self.store.reserve(1)
    }

    /// Puts a timer among the others in order. It goes past those alone that come after it.
    pub fn put(&mut self, timer: Timer) -> ItemId
        requires room { 0 < self.old.room }
        requires ordered { are_in_order (timers_in self.old.entries) ≡ true }
        ensures puts { Puts self.old.entries self.new.entries (record { id = result.0; value = timer }) }
        ensures room { self.new.room + 1 ≡ self.old.room }
    {
        match self.list {
            Some(list) => {
                let before = first_later(&self.store, list, &timer);
                self.store.insert(timer, list, before)
            }
            None => unreachable!(),
        }
    }

    /// The first timer, and its item.
    pub fn first(&self) -> Option<(ItemId, Timer)>
        ensures first { IfSome result (λ found. IsFirst self.now.entries found.0.0 found.1) }
        ensures none { IfNone result (self.now.entries ≡ []) }
    {
        let item = self.store.first(self.list?)?;
        Some((item, timer_at(&self.store, item)))
    }

    /// Takes a timer out, and there is room for one more.
    pub fn remove(&mut self, item: ItemId)
        requires { IsSome (value_at (self.old.entries ∷ []) item.0) }
        ensures left { (before after : List (Entry Timer)) (timer : Timer) → self.old.entries ≡ before ++ record { id = item.0; value = timer } ∷ after → self.new.entries ≡ before ++ after }
        ensures room { self.new.room ≡ self.old.room + 1 }
    {
        self.store.remove(item);
    }

    /// Takes out each timer of an id, and says whether there was one. It goes through all timers.
    pub fn remove_each(&mut self, id: EntryNo) -> bool
        ensures found { result ≡ list_any (is_named id) (timers_in self.old.entries) }
        ensures left { timers_in self.new.entries ≡ filter (λ timer. not (is_named id timer)) (timers_in self.old.entries) }
    {
        match self.list {
            Some(list) => remove_each(&mut self.store, list, id),
            None => false,
        }
    }

    /// How many timers there are.
    pub fn count(&self) -> usize
        ensures { result ≡ length self.now.entries }
    {
        self.store.count()
    }
}

fn comes_before(a: &Timer, b: &Timer) -> bool
    ensures { result ≡ comes_before a.now b.now }
{
    a.due < b.due || (a.due == b.due && a.id.0 < b.id.0)
}

// The timer of an item.
fn timer_at(store: &Store<Timer>, item: ItemId) -> Timer
    requires { IsSome (value_at store.now.lists item.0) }
    ensures { (list : ℕ) (before after : List (Entry Timer)) (timer : Timer) → slice_index_or store.now.lists list [] ≡ before ++ record { id = item.0; value = timer } ∷ after → result ≡ timer }
{
    looked_at::<Brand>(store, item, Blank::new(1))
}

// The timer of an item, whose steps are counted for nobody.
fn looked_at<L: Ledger>(store: &Store<Timer>, item: ItemId, blank: Blank) -> Timer
    requires item { IsSome (value_at store.now.lists item.0) }
    requires name { blank.name ≡ L.name }
    requires parts { blank.parts ≡ L.parts }
    requires some { L.parts ≡ 1 }
    ensures { (list : ℕ) (before after : List (Entry Timer)) (timer : Timer) → slice_index_or store.now.lists list [] ≡ before ++ record { id = item.0; value = timer } ∷ after → result ≡ timer }
{
    let mut steps: Steps<L> = Steps::new(blank);
    *store.look(item, &mut steps)
}

// The item of the first timer before which one comes, in a list in order. It is looked for from the list's end.
fn first_later(store: &Store<Timer>, list: ListId, timer: &Timer) -> Option<ItemId>
    requires list { list.0 < length store.now.lists }
    requires ordered { are_in_order (timers_in (slice_index_or store.now.lists list.0 [])) ≡ true }
    ensures { Gap (slice_index_or store.now.lists list.0 []) timer.now (number_of result) }
{
    let count = store.count();
    let mut later = None;
    let mut earlier = store.last(list);
    for _step in 0..count {
        let Some(item) = earlier else {
            return later;
        };
        if !comes_before(timer, &timer_at(store, item)) {
            return later;
        }
        later = Some(item);
        earlier = store.prev(item);
    }
    later
}

// Takes each timer of an id out of a list, and says whether there was one.
fn remove_each(store: &mut Store<Timer>, list: ListId, id: EntryNo) -> bool
    requires { list.0 < length store.old.lists }
    ensures lists { length store.new.lists ≡ length store.old.lists }
    ensures found { result ≡ list_any (is_named id) (timers_in (slice_index_or store.old.lists list.0 [])) }
    ensures left { timers_in (slice_index_or store.new.lists list.0 []) ≡ filter (λ timer. not (is_named id timer)) (timers_in (slice_index_or store.old.lists list.0 [])) }
{
    let count = store.count();
    let mut found = false;
    let mut rest = store.first(list);
    for _step in 0..count {
        let Some(item) = rest else {
            return found;
        };
        rest = store.next(item);
        if id == timer_at(store, item).id {
            store.remove(item);
            found = true;
        }
    }
    found
}
