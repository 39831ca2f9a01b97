ghost use Rattle.std.specs.Prelude.{◌≡◌, Some, map, is_err, IfOk, OnErr};
ghost use Rattle.vx_io.specs.Faults.{HasCause};
ghost use Rattle.vx_io.specs.Memory.{fails_next, after_call};
ghost use Rattle.vx_net.specs.Accepting.{Accepts, accept_fails, after_accept};

use crate::net::Net;
use std::alloc::Global;
use std::marker::Model;
use std::sync::Wait;
use vx_io::{Failed, Schedule, SureSink, SureSource};

/// A net in memory, of which those calls fail that are told to, or find no connection.
#[derive(Drop)]
pub struct MemNet {
    alloc: Global,
    inputs: Vec<Vec<u8>>,
    schedule: Schedule,
}

impl Model for MemNet {
    ghost use Rattle.std.specs.Prelude.{map};
    ghost use Rattle.vx_net.specs.Accepting.{Queue};

    ghost Value = { Queue };

    ghost view = { λ s. record { inputs = map (λ input. input.items) s.inputs.items; plan = s.schedule } };
}

impl MemNet {
    /// A net with these inputs to come, in order. The calls whose numbers, from 0, are in `fails` fail.
    pub fn new(alloc: Global, inputs: Vec<Vec<u8>>, fails: Vec<u64>) -> MemNet
        ensures inputs { result.inputs ≡ map (λ input. input.items) inputs.items }
        ensures plan { result.plan ≡ record { fails = fails.items; calls = 0; faults = 0 } }
    {
        MemNet {
            alloc,
            inputs,
            schedule: Schedule::new(fails),
        }
    }
}

impl Net for MemNet {
    type In = SureSource;

    type Out = SureSink;

    ghost inputs = { λ s. Some s.inputs };

    ghost faults = { λ s. s.plan.faults };

    /// Fails exactly where it is told to. The port is of no account.
    fn listen(&mut self, _port: u16) -> Result<(), Failed>
        ensures fails { is_err result ≡ fails_next self.old.plan }
        ensures plan { self.new.plan ≡ after_call self.old.plan }
        ensures same { self.new.inputs ≡ self.old.inputs }
        ensures cause { HasCause self.old.plan.faults self.new.plan.faults result }
    {
        if self.schedule.next_fails() {
            return Err(Failed);
        }
        Ok(())
    }

    /// Fails exactly where it is told to, or where no connection is to come. It does not wait.
    fn accept<R: Wait>(&mut self, _rt: &R) -> Result<(SureSource, SureSink), Failed>
        ensures fails { is_err result ≡ accept_fails self.old }
        ensures plan { self.new.plan ≡ after_accept self.old }
        ensures halves { IfOk result (λ halves. Accepts (Some self.old.inputs) (Some self.new.inputs) (Some halves.0) (Some halves.1)) }
        ensures same { OnErr result (self.new.inputs ≡ self.old.inputs) }
        ensures cause { HasCause self.old.plan.faults self.new.plan.faults result }
    {
        if self.schedule.next_fails() {
            return Err(Failed);
        }
        if self.inputs.is_empty() {
            self.schedule.add_fault();
            return Err(Failed);
        }
        let input = self.inputs.remove(0);
        Ok((SureSource::new(input), SureSink::new(self.alloc)))
    }
}
