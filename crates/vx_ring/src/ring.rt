ghost use Rattle.std.specs.Prelude.{◌≡◌, ◌+◌, ◌-◌, ◌%◌, ◌^◌, min, not, if◌then◌else◌, [], ◌∷◌, length, filter, slice_get, IfOk};
ghost use Rattle.std.specs.List.{list_any};
ghost use Rattle.vx_data.specs.Ids.{same_consumer};
ghost use Rattle.vx_ring.specs.Rings.{is_empty};

use std::alloc::Global;
use vx_data::{ConsumerId, NoMemory};

/// The consumers at one address, in the order of their registration, and how many choices were made among them.
#[derive(Drop)]
pub struct Ring {
    pub consumers: Vec<ConsumerId>,
    pub choices: u64,
}

impl Ring {
    /// A ring of one consumer, with no choices.
    pub fn of(alloc: Global, consumer: ConsumerId) -> Result<Ring, NoMemory>
        ensures consumers { IfOk result (λ ring. ring.consumers.items ≡ consumer ∷ []) }
        ensures choices { IfOk result (λ ring. ring.choices ≡ 0) }
    {
        Ok(Ring {
            consumers: vec![in alloc; consumer]?,
            choices: 0,
        })
    }

    /// The consumer whose turn it is.
    pub fn turn(&self) -> Option<ConsumerId>
        ensures { result ≡ slice_get self.now.consumers.items (self.now.choices % length self.now.consumers.items) }
    {
        let turn = self.choices.checked_rem(self.consumers.len() as u64)?;
        self.consumers.get(turn as usize).copied()
    }

    /// The consumer whose turn it is, and one more choice. 2^64 - 1 choices stay as they are.
    pub fn take_turn(&mut self) -> Option<ConsumerId>
        ensures chosen { result ≡ slice_get self.old.consumers.items (self.old.choices % length self.old.consumers.items) }
        ensures consumers { self.new.consumers.items ≡ self.old.consumers.items }
        ensures choices { self.new.choices ≡ (if is_empty self.old.consumers.items then self.old.choices else min (self.old.choices + 1) (2 ^ 64 - 1)) }
    {
        let chosen = self.turn();
        if chosen.is_some() {
            self.choices = self.choices.saturating_add(1);
        }
        chosen
    }

    /// Leaves a consumer out, and says whether it was there.
    pub fn leave_out(&mut self, consumer: ConsumerId) -> bool
        ensures found { result ≡ list_any (same_consumer consumer) self.old.consumers.items }
        ensures left { self.new.consumers.items ≡ filter (λ other. not (same_consumer consumer other)) self.old.consumers.items }
        ensures choices { self.new.choices ≡ self.old.choices }
    {
        let found = self.consumers.contains(&consumer);
        self.consumers.retain(|other| consumer != *other);
        found
    }
}
