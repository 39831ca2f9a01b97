ghost use Rattle.std.specs.Prelude.{◌≡◌, ◌+◌, ◌-◌, ◌%◌, ◌^◌, ◌&&◌, ℕ, min, not, if◌then◌else◌, List, [], ◌∷◌, ◌++◌, length, filter, slice_get, OnOk, OnErr};
ghost use Rattle.std.specs.List.{list_any};
ghost use Rattle.std.specs.Str.{bytes_eq};
ghost use Rattle.vx_data.specs.Ids.{same_consumer};
ghost use Rattle.vx_ring.specs.Rings.{is_empty, consumers_at, choices_at};
ghost use Rattle.vx_ring.specs.Entries.{ring_at, consumers_of, choices_of, HaveConsumers};

use crate::ring::Ring;
use indexmap::IndexMap;
use std::alloc::Global;
use std::marker::Model;
use vx_data::{ConsumerId, NoMemory, Text};

/// The consumers at each address, and how many choices were made there since the address last had no consumer.
#[derive(Drop)]
pub struct Rings {
    map: IndexMap<Text, Ring>,
    alloc: Global,
}

impl Model for Rings {
    ghost use Rattle.std.specs.Prelude.{List};
    ghost use Rattle.vx_ring.specs.Rings.{RingAt};
    ghost use Rattle.vx_ring.specs.Entries.{rings_of, HaveConsumers};

    ghost Value = { List RingAt };

    ghost view = { λ rings. rings_of rings.map.entries };

    ghost invariant = { λ rings. HaveConsumers rings.map.entries };
}

impl Rings {
    /// No consumers. It takes no memory.
    pub fn new(alloc: Global) -> Rings
        ensures consumers { (a : List ℕ) → consumers_at a result ≡ [] }
        ensures choices { (a : List ℕ) → choices_at a result ≡ 0 }
    {
        Rings {
            map: IndexMap::new(alloc),
            alloc,
        }
    }

    /// Adds a consumer behind those at an address. `NoMemory` comes where memory runs out, and then all stays as it was.
    pub fn add(&mut self, address: &Text, consumer: ConsumerId) -> Result<(), NoMemory>
        ensures added { OnOk result ((a : List ℕ) → consumers_at a self.new ≡ (if bytes_eq a address.now then consumers_at a self.old ++ consumer ∷ [] else consumers_at a self.old)) }
        ensures without_memory_as_before { OnErr result ((a : List ℕ) → consumers_at a self.new ≡ consumers_at a self.old) }
        ensures choices { (a : List ℕ) → choices_at a self.new ≡ choices_at a self.old }
    {
        add(&mut self.map, self.alloc, address, consumer)
    }

    /// Takes a consumer out at an address, and says whether it was there. Where it was the last one, the choices there
    /// are counted from 0 again. It takes no memory.
    pub fn remove(&mut self, address: &Text, consumer: ConsumerId) -> bool
        ensures found { result ≡ list_any (same_consumer consumer) (consumers_at address.now self.old) }
        ensures left { (a : List ℕ) → consumers_at a self.new ≡ (if bytes_eq a address.now then filter (λ other. not (same_consumer consumer other)) (consumers_at a self.old) else consumers_at a self.old) }
        ensures choices { (a : List ℕ) → choices_at a self.new ≡ (if is_empty (consumers_at a self.new) then 0 else choices_at a self.old) }
    {
        remove(&mut self.map, address, consumer)
    }

    /// The consumer whose turn it is at an address, or none where it has none. The choice is not counted.
    pub fn turn(&self, address: &Text) -> Option<ConsumerId>
        ensures { result ≡ slice_get (consumers_at address.now self.now) (choices_at address.now self.now % length (consumers_at address.now self.now)) }
    {
        turn(&self.map, address)
    }

    /// The consumer whose turn it is at an address, or none where it has none, and counts the choice. 2^64 - 1 choices
    /// stay as they are. It takes no memory.
    pub fn choose(&mut self, address: &Text) -> Option<ConsumerId>
        ensures chosen { result ≡ slice_get (consumers_at address.now self.old) (choices_at address.now self.old % length (consumers_at address.now self.old)) }
        ensures consumers { (a : List ℕ) → consumers_at a self.new ≡ consumers_at a self.old }
        ensures choices { (a : List ℕ) → choices_at a self.new ≡ (if bytes_eq a address.now && not (is_empty (consumers_at a self.old)) then min (choices_at a self.old + 1) (2 ^ 64 - 1) else choices_at a self.old) }
    {
        choose(&mut self.map, address)
    }

    /// The consumers at an address, in the order of their registration.
    pub fn all(&self, address: &Text) -> &[ConsumerId]
        ensures { result.now ≡ consumers_at address.now self.now }
    {
        match self.map.get(address) {
            Some(ring) => &ring.consumers,
            None => &[],
        }
    }
}

// Adds a consumer at an address, whose ring is made where it has none.
fn add(
    map: &mut IndexMap<Text, Ring>,
    alloc: Global,
    address: &Text,
    consumer: ConsumerId,
) -> Result<(), NoMemory>
    ensures kept { HaveConsumers map.old.entries → HaveConsumers map.new.entries }
    ensures added { OnOk result ((a : List ℕ) → consumers_of (ring_at a map.new.entries) ≡ (if bytes_eq a address.now then consumers_of (ring_at a map.old.entries) ++ consumer ∷ [] else consumers_of (ring_at a map.old.entries))) }
    ensures without_memory_as_before { OnErr result ((a : List ℕ) → consumers_of (ring_at a map.new.entries) ≡ consumers_of (ring_at a map.old.entries)) }
    ensures choices { (a : List ℕ) → choices_of (ring_at a map.new.entries) ≡ choices_of (ring_at a map.old.entries) }
{
    match map.get_mut(address) {
        Some(ring) => ring.consumers.push(consumer)?,
        None => {
            let ring = Ring::of(alloc, consumer)?;
            map.insert(address.copy(alloc)?, ring)?;
        }
    }
    Ok(())
}

// Takes a consumer out at an address, and its ring where it was the last one.
fn remove(map: &mut IndexMap<Text, Ring>, address: &Text, consumer: ConsumerId) -> bool
    requires { HaveConsumers map.old.entries }
    ensures kept { HaveConsumers map.new.entries }
    ensures found { result ≡ list_any (same_consumer consumer) (consumers_of (ring_at address.now map.old.entries)) }
    ensures left { (a : List ℕ) → consumers_of (ring_at a map.new.entries) ≡ (if bytes_eq a address.now then filter (λ other. not (same_consumer consumer other)) (consumers_of (ring_at a map.old.entries)) else consumers_of (ring_at a map.old.entries)) }
    ensures choices { (a : List ℕ) → choices_of (ring_at a map.new.entries) ≡ (if is_empty (consumers_of (ring_at a map.new.entries)) then 0 else choices_of (ring_at a map.old.entries)) }
{
    let Some(ring) = map.get_mut(address) else {
        return false;
    };
    let found = ring.leave_out(consumer);
    if ring.consumers.is_empty() {
        map.swap_remove(address);
    }
    found
}

// The consumer whose turn it is at an address.
fn turn(map: &IndexMap<Text, Ring>, address: &Text) -> Option<ConsumerId>
    ensures { result ≡ slice_get (consumers_of (ring_at address.now map.now.entries)) (choices_of (ring_at address.now map.now.entries) % length (consumers_of (ring_at address.now map.now.entries))) }
{
    map.get(address)?.turn()
}

// The consumer whose turn it is at an address, whose choices are counted.
fn choose(map: &mut IndexMap<Text, Ring>, address: &Text) -> Option<ConsumerId>
    ensures kept { HaveConsumers map.old.entries → HaveConsumers map.new.entries }
    ensures chosen { result ≡ slice_get (consumers_of (ring_at address.now map.old.entries)) (choices_of (ring_at address.now map.old.entries) % length (consumers_of (ring_at address.now map.old.entries))) }
    ensures consumers { (a : List ℕ) → consumers_of (ring_at a map.new.entries) ≡ consumers_of (ring_at a map.old.entries) }
    ensures choices { (a : List ℕ) → choices_of (ring_at a map.new.entries) ≡ (if bytes_eq a address.now && not (is_empty (consumers_of (ring_at a map.old.entries))) then min (choices_of (ring_at a map.old.entries) + 1) (2 ^ 64 - 1) else choices_of (ring_at a map.old.entries)) }
{
    map.get_mut(address)?.take_turn()
}
