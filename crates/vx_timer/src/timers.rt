ghost use Rattle.std.specs.Prelude.{◌≡◌, ◌+◌, ◌*◌, ◌<◌, ◌≤◌, ◌^◌, [], ◌∷◌, not, filter, length, All, IfSome, IfNone, OnOk, OnErr, true, ℕ};
ghost use Rattle.std.specs.List.{list_any};
ghost use Rattle.vx_timer.specs.Order.{put, next_due, again, first_due, is_named, is_period, are_in_order, are_periods, Fires};
ghost use Rattle.vx_timer.specs.Queued.{timers_in, AreNamed};

use crate::names::{forget, note, note_again};
use crate::queue::Queue;
use indexmap::IndexMap;
use std::alloc::Global;
use std::marker::Model;
use vx_data::{EntryNo, Moment, NoMemory};
use vx_items::ItemId;

/// A timer: the entry that set it, the moment at which it fires next, in milliseconds, and for a periodic one the
/// milliseconds from one firing to the next.
#[derive(Clone, Copy)]
pub struct Timer {
    pub id: EntryNo,
    pub due: u64,
    pub period: Option<u64>,
}

/// Timers. Contracts see them as a list by (due moment, id).
#[derive(Drop)]
pub struct Timers {
    queue: Queue,
    names: IndexMap<u64, ItemId>,
    // whether an id was set while it had a timer: then `names` isn't asked any more
    repeated: bool,
}

impl Model for Timers {
    ghost use Rattle.std.specs.Prelude.{List};
    ghost use Rattle.vx_timer.specs.declared.timers.Timer.{Timer};
    ghost use Rattle.vx_timer.specs.Queued.{timers_in, AreKept};

    ghost Value = { List Timer };

    ghost view = { λ timers. timers_in timers.queue.entries };

    ghost invariant = { λ timers. AreKept timers.queue.entries timers.names.entries timers.repeated };
}

impl Timers {
    /// No timers. It takes no memory.
    pub fn new(alloc: Global) -> Timers
        ensures { result ≡ [] }
    {
        Timers {
            queue: Queue::new(alloc),
            names: IndexMap::new(alloc),
            repeated: false,
        }
    }

    /// Sets a timer. A period is 1 to 1,000,000,000,000 ms.
    pub fn set(&mut self, id: EntryNo, due: u64, period: Option<u64>) -> Result<(), NoMemory>
        requires { is_period period ≡ true }
        ensures ok { OnOk result (self.new ≡ put (record { id = id; due = due; period = period }) self.old) }
        ensures err { OnErr result (self.new ≡ self.old) }
    {
        self.queue.reserve()?;
        self.names.reserve(1)?;
        let item = self.queue.put(Timer { id, due, period });
        if note(&mut self.names, id, item) {
            self.repeated = true;
        }
        Ok(())
    }

    /// Ends a timer, and says whether it was there.
    pub fn cancel(&mut self, id: EntryNo) -> bool
        ensures found { result ≡ list_any (is_named id) self.old }
        ensures left { self.new ≡ filter (λ timer. not (is_named id timer)) self.old }
    {
        if self.repeated {
            return self.queue.remove_each(id);
        }
        match forget(&mut self.names, id) {
            Some(item) => {
                self.queue.remove(item);
                true
            }
            None => false,
        }
    }

    /// The timer that is due first, by (due moment, id), if one is due now. A one-shot timer ends; a periodic one is due
    /// again at the first moment past now that is a multiple of its period behind its due moment.
    pub fn due(&mut self, now: Moment) -> Option<(u64, EntryNo)>
        ensures none { IfNone result (self.new ≡ self.old) }
        ensures later { IfNone result (All (λ timer. now < timer.due) self.old) }
        ensures fires { IfSome result (λ fired. Fires now self.old self.new fired.0 fired.1) }
    {
        fire(&mut self.queue, &mut self.names, now.ms())
    }

    /// How many timers there are.
    pub fn count(&self) -> usize
        ensures { result ≡ length self.now }
    {
        self.queue.count()
    }

    /// The least due moment.
    pub fn next_due(&self) -> Option<u64>
        ensures { result ≡ first_due self.now }
    {
        self.queue.first().map(|(_, timer)| timer.due)
    }
}

// When a timer fires again: at the first moment past now that is a multiple of its period behind its due moment.
fn next_due(due: u64, period: u64, now: u64) -> u64
    requires positive { 0 < period }
    requires short { period ≤ 1000000000000 }
    requires is_due { due ≤ now }
    requires early { now ≤ 2 ^ 62 }
    ensures { result ≡ next_due due period now }
{
    due + ((now - due) / period + 1) * period
}

// A periodic timer that fired is put among the others again, and the id of another one is forgotten.
fn set_again(queue: &mut Queue, names: &mut IndexMap<u64, ItemId>, timer: Timer, now: u64)
    requires room { 0 < queue.old.room }
    requires ordered { are_in_order (timers_in queue.old.entries) ≡ true }
    requires period { is_period timer.period ≡ true }
    requires is_due { timer.due ≤ now }
    requires early { now ≤ 2 ^ 62 }
    ensures again { timers_in queue.new.entries ≡ again now timer timer.period (timers_in queue.old.entries) }
    ensures named { (item : ℕ) → AreNamed (record { id = item; value = timer } ∷ queue.old.entries) names.old.entries → AreNamed queue.new.entries names.new.entries }
{
    match timer.period {
        None => {
            forget(names, timer.id);
        }
        Some(period) => {
            let due = next_due(timer.due, period, now);
            let item = queue.put(Timer { due, ..timer });
            note_again(names, timer.id, item);
        }
    }
}

// Takes the first of timers in order, if it is due, and puts it among the others again where it is periodic.
fn fire(queue: &mut Queue, names: &mut IndexMap<u64, ItemId>, now: u64) -> Option<(u64, EntryNo)>
    requires ordered { are_in_order (timers_in queue.old.entries) ≡ true }
    requires periods { are_periods (timers_in queue.old.entries) ≡ true }
    requires early { now ≤ 2 ^ 62 }
    ensures ordered { are_in_order (timers_in queue.new.entries) ≡ true }
    ensures periods { are_periods (timers_in queue.new.entries) ≡ true }
    ensures named { AreNamed queue.old.entries names.old.entries → AreNamed queue.new.entries names.new.entries }
    ensures none { IfNone result (timers_in queue.new.entries ≡ timers_in queue.old.entries) }
    ensures later { IfNone result (All (λ timer. now < timer.due) (timers_in queue.old.entries)) }
    ensures fires { IfSome result (λ fired. Fires now (timers_in queue.old.entries) (timers_in queue.new.entries) fired.0 fired.1) }
{
    let (item, first) = queue.first()?;
    if first.due > now {
        return None;
    }
    queue.remove(item);
    set_again(queue, names, first, now);
    Some((first.due, first.id))
}

/// The moment at which a periodic timer that is due fires again is past now, and no further than its period.
pub fn fires_again_past_now()
    ensures past { (due period now : ℕ) → 0 < period → due ≤ now → now < next_due due period now }
    ensures near { (due period now : ℕ) → 0 < period → due ≤ now → next_due due period now ≤ now + period }
    ensures multiple { (due period now : ℕ) → (count : ℕ) × (next_due due period now ≡ due + count * period) }
{}
