//! No handlers that are called once.
use crate::once::{OnceEnd, OnceInput, OnceRule};
use crate::plain_acts::PlainActs;
use std::alloc::Global;
use vx_call::End;
use vx_data::{NoMemory, Numbers};

/// The handlers that are called once of a verticle that hands over none. One would do nothing.
#[derive(Drop)]
pub struct NoOnce {
    alloc: Global,
}

impl NoOnce {
    /// A handler that does nothing. It takes no memory.
    pub fn new(alloc: Global) -> NoOnce {
        NoOnce { alloc }
    }
}

impl OnceRule for NoOnce {
    ghost use Rattle.vx_verticle.specs.NoOnces.{AllowsNothing, may_run_out, ran_out};
    ghost use Rattle.std.specs.Prelude.{[]};

    ghost allows = { AllowsNothing };

    ghost argument = { λ rule. [] };

    fn run(self, _input: OnceInput) -> OnceEnd {
        OnceEnd {
            acts: PlainActs::new(self.alloc),
            end: End::Done,
        }
    }

    fn tell(&self) -> Result<Numbers, NoMemory> {
        Numbers::new(self.alloc, &[])
    }

    ghost may_run_out = { may_run_out };

    ghost ran_out = { ran_out };
}
