//! What becomes of requests as consumers and contexts leave.

ghost use Rattle.std.specs.Prelude.{◌≡◌, ◌<◌, ◌≤◌, ◌+◌, not, ◌++◌, length, filter};
ghost use Rattle.vx_bus_store.specs.Stands.{HavePlaces};
ghost use Rattle.vx_bus_delivery.specs.Lost.{ended_rows, lost_rows, lost_item, lost_task, lost_items, lost_tasks, is_timer_of, EndsRequests};

use crate::outcomes::{no_handlers, put_outcome};
use vx_bus_store::{Bus, home_of};
use vx_context::Contexts;
use vx_data::EntryNo;
use vx_request::{Leaver, OpenRequest};
use vx_timer::Timers;

/// Ends the requests that end with what leaves, and their timers. Those whose asker stays fail, since nobody can reply any
/// more: their outcomes are made ready in order, at places from 0 on. Says how many. It takes no memory.
pub fn end_requests(
    contexts: &mut Contexts,
    timers: &mut Timers,
    bus: &mut Bus,
    at: EntryNo,
    leaver: Leaver,
) -> u64
    requires places { HavePlaces contexts.old bus.old }
    ensures ends { EndsRequests contexts.old contexts.new timers.old timers.new bus.old bus.new at leaver }
    ensures count { result ≡ length (lost_rows leaver bus.old) }
    ensures places { HavePlaces contexts.new bus.new }
{
    cancel_timers(timers, bus, leaver);
    let count = fail_requests(contexts, bus, at, leaver);
    bus.end_with(leaver, at);
    count
}

// Ends the timers of the requests that end.
fn cancel_timers(timers: &mut Timers, bus: &Bus, leaver: Leaver)
    ensures { timers.new ≡ filter (λ timer. not (is_timer_of (ended_rows leaver bus.now) timer)) timers.old }
{
    for index in 0..bus.open_count() {
        let row = bus.open_at(index);
        if bus.ends_with(&row, leaver) {
            timers.cancel(row.id.0);
        }
    }
}

// Makes the outcome of each request that ends and whose asker stays, and says how many.
fn fail_requests(contexts: &mut Contexts, bus: &mut Bus, at: EntryNo, leaver: Leaver) -> u64
    requires places { HavePlaces contexts.old bus.old }
    ensures items { contexts.new ≡ record contexts.old { waiting = contexts.old.waiting ++ lost_items contexts.old.made at 0 (lost_rows leaver bus.old); room = contexts.new.room } }
    ensures tasks { bus.new ≡ record bus.old { tasks = bus.old.tasks ++ lost_tasks (lost_rows leaver bus.old); room = bus.new.room } }
    ensures count { result ≡ length (lost_rows leaver bus.old) }
    ensures items_room { contexts.old.room ≤ contexts.new.room + length (lost_rows leaver bus.old) }
    ensures tasks_room { bus.old.room ≤ bus.new.room + length (lost_rows leaver bus.old) }
{
    let mut place = 0;
    for index in 0..bus.open_count() {
        let row = bus.open_at(index);
        if bus.fails_with(&row, leaver) {
            put_lost(contexts, bus, at, place, row);
            place += 1;
        }
    }
    place
}

// Makes the outcome of a request that nobody can answer, where a context asked.
fn put_lost(contexts: &mut Contexts, bus: &mut Bus, at: EntryNo, place: u64, row: OpenRequest)
    requires items { 0 < contexts.old.room }
    requires tasks { 0 < bus.old.room }
    ensures items { contexts.new ≡ record contexts.old { waiting = contexts.old.waiting ++ lost_item contexts.old.made at place row.id row.asker; room = contexts.new.room } }
    ensures tasks { bus.new ≡ record bus.old { tasks = bus.old.tasks ++ lost_task row.id row.asker; room = bus.new.room } }
    ensures items_room { contexts.old.room ≤ contexts.new.room + 1 }
    ensures tasks_room { bus.old.room ≤ bus.new.room + 1 }
{
    if let Some(asker) = home_of(row.asker) {
        put_outcome(contexts, bus, at, place, row.id, asker, no_handlers());
    }
}
