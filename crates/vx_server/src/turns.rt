//! The counts of turns, by places.

ghost use Rattle.std.specs.Prelude.{◌≡◌, ◌||◌, filter, is_some, OnOk, OnErr};
ghost use Rattle.vx_server.specs.declared.place.Place.{Place};
ghost use Rattle.vx_server.specs.Servers.{same_place, has_listener, count_at, turns_at};

use crate::place::Place;
use crate::servers::{Server, has_listener};
use indexmap::IndexMap;
use vx_data::NoMemory;

/// Counts the turns at a place from 0 on, where they are not counted yet. It fails where memory runs out.
pub fn begin(turns: &mut IndexMap<Place, u64>, place: Place) -> Result<(), NoMemory>
    ensures same { (p : Place) → turns_at p turns.new.entries ≡ turns_at p turns.old.entries }
    ensures begun { OnOk result ((p : Place) → is_some (count_at p turns.new.entries) ≡ (is_some (count_at p turns.old.entries) || same_place place p)) }
    ensures without_memory_as_before { OnErr result ((p : Place) → is_some (count_at p turns.new.entries) ≡ is_some (count_at p turns.old.entries)) }
{
    if !turns.contains_key(&place) {
        turns.insert(place, 0)?;
    }
    Ok(())
}

/// Forgets the turns at places where no server listens any more. It takes no memory.
pub fn forget_left(turns: &mut IndexMap<Place, u64>, servers: &Vec<Server>)
    ensures { turns.new.entries ≡ filter (λ count. has_listener count.0 servers.now.items) turns.old.entries }
{
    turns.retain(
        |place: &Place, count: &mut u64| -> bool
            ensures { (result ≡ has_listener place.now servers.entry.now.items) × (count.new ≡ count.old) }
        { has_listener(servers, place) },
    );
}
