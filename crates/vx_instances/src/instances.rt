ghost use Rattle.std.specs.Prelude.{◌≡◌, ◌≤◌, ◌++◌, [], Some, None, OnOk, OnErr, length, map};
ghost use Rattle.std.specs.Option.{option_map};
ghost use Rattle.vx_instances.specs.Kept.{put_at, state_in, without, kept_from};

use crate::homes::{Home, lift, lower, place_of, settle_in, take_down};
use std::alloc::Global;
use std::marker::Model;
use vx_data::{ContextId, EntryNo, NoMemory};
use vx_verticle::Verticle;

/// The open contexts of verticles, in the order of making, each with its verticle while no handler of it runs.
#[derive(Drop)]
pub struct Instances<V: Verticle> {
    homes: Vec<Home<V>>,
}

impl<V: Verticle> Model for Instances<V> {
    ghost use Rattle.std.specs.Prelude.{◌-◌, map, vec_len, vec_capacity};
    ghost use Rattle.std.specs.Option.{option_map};
    ghost use Rattle.vx_instances.specs.Kept.{InstanceStore};

    ghost Value = { InstanceStore };

    ghost view = { λ a. record { kept = map (λ h. record { context = h.context; state = option_map V.state h.verticle }) a.homes.items; room = vec_capacity a.homes - vec_len a.homes } };
}

impl<V: Verticle> Instances<V> {
    /// No contexts. It takes no memory.
    pub fn new(alloc: Global) -> Instances<V>
        ensures { result.kept ≡ [] }
    {
        Instances {
            homes: Vec::new(alloc),
        }
    }

    /// Makes room for so many verticles more.
    pub fn reserve(&mut self, count: usize) -> Result<(), NoMemory>
        ensures same { self.new.kept ≡ self.old.kept }
        ensures room { OnOk result (count ≤ self.new.room) }
    {
        self.homes.reserve(count)?;
        Ok(())
    }

    /// Adds the verticles of a deployment, for which there is room: their contexts are numbered from 0. It takes no memory.
    pub fn add(&mut self, entry: EntryNo, verticles: Vec<V>)
        requires room { length verticles.items ≤ self.old.room }
        requires few { length verticles.items ≤ 4294967295 }
        ensures { self.new.kept ≡ self.old.kept ++ kept_from entry 0 (map V.state verticles.items) }
    {
        settle_in(&mut self.homes, entry, verticles);
    }

    /// Hands out the verticle of a context, if it is there and at home. It takes no memory.
    pub fn take_out(&mut self, context: ContextId) -> Option<V>
        ensures given { option_map V.state result ≡ state_in context self.old.kept }
        ensures out { self.new.kept ≡ put_at context None self.old.kept }
    {
        match place_of(&self.homes, context) {
            Some(at) => lift(&mut self.homes, at),
            None => None,
        }
    }

    /// Gives a context its verticle back, which is dropped where there is no such context. It takes no memory.
    pub fn put_in(&mut self, context: ContextId, verticle: V)
        ensures { self.new.kept ≡ put_at context (Some (V.state verticle)) self.old.kept }
    {
        match place_of(&self.homes, context) {
            Some(at) => lower(&mut self.homes, at, verticle),
            None => {}
        }
    }

    /// Takes a context away that is closed, with its verticle if that is at home. It takes no memory.
    pub fn remove(&mut self, context: ContextId)
        ensures { self.new.kept ≡ without context self.old.kept }
    {
        match place_of(&self.homes, context) {
            Some(at) => take_down(&mut self.homes, at),
            None => {}
        }
    }

    /// Takes all contexts away, as the hub closes. It takes no memory.
    pub fn clear(&mut self)
        ensures { self.new.kept ≡ [] }
    {
        self.homes.clear();
    }
}
