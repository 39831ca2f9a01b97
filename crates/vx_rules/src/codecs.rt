ghost use Rattle.std.specs.Prelude.{◌≡◌, ◌+◌, ◌<◌, ◌≤◌, not, [], ◌∷◌, ◌++◌, length, filter, find, None, OnOk};
ghost use Rattle.std.specs.List.{list_any};
ghost use Rattle.std.specs.Option.{option_map};
ghost use Rattle.vx_message.specs.Codecs.{is_codec};
ghost use Rattle.vx_message.specs.declared.rules.Codec.{Codec};

use std::alloc::Global;
use std::marker::Model;
use vx_data::{CodecId, NoMemory, Text};
use vx_message::{Codec, CodecForm};

/// The codecs that are there, in the order of adding. (Vert.x core API, `EventBus.registerCodec` and
/// `unregisterCodec`.)
#[derive(Drop)]
pub struct Codecs {
    rows: Vec<Codec>,
}

impl Model for Codecs {
    ghost use Rattle.std.specs.Prelude.{◌-◌, vec_len, vec_capacity};
    ghost use Rattle.vx_rules.specs.Stores.{CodecStore};

    ghost Value = { CodecStore };

    ghost view = { λ store. record { codecs = store.rows.items; room = vec_capacity store.rows - vec_len store.rows } };
}

impl Codecs {
    /// No codecs. It takes no memory.
    pub fn new(alloc: Global) -> Codecs
        ensures { result ≡ record { codecs = []; room = 0 } }
    {
        Codecs {
            rows: Vec::new(alloc),
        }
    }

    /// Makes room for one more codec. It fails where memory runs out.
    pub fn reserve(&mut self) -> Result<(), NoMemory>
        ensures same { self.new.codecs ≡ self.old.codecs }
        ensures room { OnOk result (0 < self.new.room) }
        ensures kept { self.old.room ≤ self.new.room }
    {
        self.rows.reserve(1)?;
        Ok(())
    }

    /// Adds a codec whose name is free, behind the others. It takes no memory.
    pub fn add(&mut self, id: CodecId, name: Text, form: CodecForm)
        requires room { 0 < self.old.room }
        requires free { find (is_codec name) self.old.codecs ≡ None }
        ensures added { self.new.codecs ≡ self.old.codecs ++ record { id = id; name = name; form = form } ∷ [] }
        ensures room { self.old.room ≤ self.new.room + 1 }
    {
        self.rows.push(Codec { id, name, form }).unwrap();
    }

    /// Removes the codec of a name, and says whether it was there.
    pub fn remove(&mut self, name: &Text) -> bool
        ensures found { result ≡ list_any (is_codec name.now) self.old.codecs }
        ensures left { self.new.codecs ≡ filter (λ codec. not (is_codec name.now codec)) self.old.codecs }
        ensures room { self.old.room ≤ self.new.room }
    {
        let found = self.rows.iter().any(|codec| name.is(&codec.name));
        self.rows.retain(|codec| !name.is(&codec.name));
        found
    }

    /// The codec of a name, by the entry that added it, and its form.
    pub fn find(&self, name: &Text) -> Option<(CodecId, &CodecForm)>
        ensures id { option_map (λ found. found.0) result ≡ option_map (λ (codec : Codec). codec.id) (find (is_codec name.now) self.now.codecs) }
        ensures form { option_map (λ found. found.1.now) result ≡ option_map (λ (codec : Codec). codec.form) (find (is_codec name.now) self.now.codecs) }
    {
        let codec = self.rows.iter().find(|codec| name.is(&codec.name))?;
        Some((codec.id, &codec.form))
    }

    /// How many codecs are there.
    pub fn len(&self) -> usize
        ensures { result ≡ length self.now.codecs }
    {
        self.rows.len()
    }
}
