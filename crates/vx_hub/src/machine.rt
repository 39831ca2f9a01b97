//! The hub under the turn: its history is that of all passes.
use crate::hub::{Hub, LIMIT};
use crate::rows::new_pass::new_pass;
use vx_call::Traced;
use vx_data::PassNo;
use vx_turn::{Machine, Spent};
use vx_verticle::Verticle;

impl<V: Verticle> Machine for Hub<V> {
    type Entry = Traced;

    ghost use Rattle.vx_call.specs.Passes.{passes};
    ghost use Rattle.vx_call.specs.Machine.{IsLegal};
    ghost use Rattle.vx_hub.specs.Stands.{AllStand};
    ghost use Rattle.vx_hub.specs.Passes.{pass_of, opens, one_at_first, passes_rise, opened_by, one_more};

    ghost stands_for = { AllStand };

    ghost legal = { IsLegal };

    ghost pass_of = { pass_of };

    ghost passes = { passes };

    ghost opens = { opens };

    fn count(&self) -> u64 {
        self.counts.entries()
    }

    fn new_pass(&mut self, pass: PassNo) -> Result<PassNo, Spent> {
        if self.counts.entries() >= LIMIT {
            return Err(Spent);
        }
        let number = new_pass(&mut self.passes);
        self.counts.add(false, false);
        Ok(number)
    }

    ghost one_at_first = { one_at_first };

    ghost never_falls = { passes_rise };

    ghost opened_by = { opened_by };

    ghost one_more = { one_more };
}
