//! The verticles that passes hold: handed out with a task, and given back as it is finished.
ghost use Rattle.std.specs.Prelude.{◌≡◌, ◌<◌, [], nat_eq, if◌then◌else◌, None, OnOk};
ghost use Rattle.std.specs.Option.{option_or};
ghost use Rattle.vx_data.specs.declared.ids.PassNo.{PassNo};
ghost use Rattle.vx_script.specs.Held.{verticle_of};

use indexmap::IndexMap;
use std::alloc::Global;
use std::marker::Model;
use vx_data::{NoMemory, PassNo};
use vx_kinds::HostVerticle;

/// The verticles that passes hold, one for each pass at most.
#[derive(Drop)]
pub(crate) struct HeldVerticles {
    map: IndexMap<u64, HostVerticle>,
}

impl Model for HeldVerticles {
    ghost use Rattle.indexmap.specs.IndexMap.{spare};
    ghost use Rattle.vx_script.specs.Held.{HeldStore};

    ghost Value = { HeldStore };

    ghost view = { λ a. record { verticles = a.map.entries; room = spare a.map } };
}

impl HeldVerticles {
    /// None is held. It takes no memory.
    pub(crate) fn new(alloc: Global) -> HeldVerticles
        ensures { result.verticles ≡ [] }
    {
        HeldVerticles {
            map: IndexMap::new(alloc),
        }
    }

    /// Makes room for one more.
    pub(crate) fn reserve(&mut self) -> Result<(), NoMemory>
        ensures same { self.new.verticles ≡ self.old.verticles }
        ensures room { OnOk result (0 < self.new.room) }
    {
        self.map.reserve(1)?;
        Ok(())
    }

    /// Keeps the verticle that was handed out to a pass, if one was. It takes no memory.
    pub(crate) fn keep(&mut self, pass: PassNo, verticle: Option<HostVerticle>)
        requires { 0 < self.old.room }
        ensures { (other : PassNo) → verticle_of other self.new.verticles ≡ (if nat_eq other.0 pass.0 then option_or verticle (verticle_of other self.old.verticles) else verticle_of other self.old.verticles) }
    {
        if let Some(verticle) = verticle {
            self.map.insert(pass.0, verticle).unwrap();
        }
    }

    /// Takes out what a pass holds. It takes no memory.
    pub(crate) fn give_back(&mut self, pass: PassNo) -> Option<HostVerticle>
        ensures verticle { result ≡ verticle_of pass self.old.verticles }
        ensures others { (other : PassNo) → verticle_of other self.new.verticles ≡ (if nat_eq other.0 pass.0 then None else verticle_of other self.old.verticles) }
        ensures room { 0 < self.old.room → 0 < self.new.room }
    {
        self.map.swap_remove(&pass.0)
    }
}
