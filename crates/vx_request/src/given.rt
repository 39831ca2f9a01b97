ghost use Rattle.std.specs.Prelude.{◌≡◌, ◌+◌, ◌<◌, ◌≤◌, if◌then◌else◌, [], None, Some, OnOk};
ghost use Rattle.std.specs.Option.{option_or};
ghost use Rattle.vx_data.specs.declared.ids.MessageId.{MessageId};
ghost use Rattle.vx_data.specs.Ids.{same_message};
ghost use Rattle.vx_request.specs.Stores.{given_at};

use crate::first::keep_first;
use indexmap::IndexMap;
use std::alloc::Global;
use std::marker::Model;
use vx_data::{MessageId, NoMemory};
use vx_message::Given;

/// The messages that were given out to a handler.
#[derive(Drop)]
pub struct GivenOut {
    map: IndexMap<u64, Given>,
}

impl Model for GivenOut {
    ghost use Rattle.indexmap.specs.IndexMap.{spare};
    ghost use Rattle.vx_request.specs.Stores.{GivenStore};

    ghost Value = { GivenStore };

    ghost view = { λ a. record { given = a.map.entries; room = spare a.map } };
}

impl GivenOut {
    /// Nothing given out. It takes no memory.
    pub fn new(alloc: Global) -> GivenOut
        ensures { result.given ≡ [] }
    {
        GivenOut {
            map: IndexMap::new(alloc),
        }
    }

    /// Makes room for this many more messages. It fails where memory runs out.
    pub fn reserve(&mut self, places: usize) -> Result<(), NoMemory>
        ensures same { (id : MessageId) → given_at id self.new.given ≡ given_at id self.old.given }
        ensures places { OnOk result (places ≤ self.new.room) }
        ensures room { self.old.room ≤ self.new.room }
    {
        self.map.reserve(places)?;
        Ok(())
    }

    /// Keeps that a message was given out. What was given out first stays. It takes no memory.
    pub fn give(&mut self, given: Given)
        requires { 0 < self.old.room }
        ensures first { (id : MessageId) → given_at id self.new.given ≡ option_or (given_at id self.old.given) (if same_message id given.id then Some given else None) }
        ensures room { self.old.room ≤ self.new.room + 1 }
    {
        keep_first(&mut self.map, given.id.0.0, given);
    }

    /// How a message was given out, if it was.
    pub fn given(&self, id: MessageId) -> Option<Given>
        ensures { result ≡ given_at id self.now.given }
    {
        self.map.get(&id.0.0).copied()
    }
}
