//! The host's verticles.
ghost use Rattle.std.specs.Prelude.{◌≡◌, [], IfOk, OnErr};
ghost use Rattle.vx_kinds.specs.Hosts.{state_in, kind_in, settings_in, own_in, due_from, Reacts, Told};

use crate::caller::Caller;
use crate::counter::Counter;
use crate::echo::Echo;
use crate::failer::Failer;
use crate::parent::Parent;
use crate::relay::Relay;
use crate::rule::HostRule;
use crate::settings::state_of;
use crate::silent::Silent;
use vx_data::{NoMemory, Numbers};
use vx_verticle::{ActResult, Acts, End, Event, Task, Verticle};

/// A verticle of one of the host's kinds.
#[derive(Drop)]
pub enum HostVerticle {
    Echo(Echo),
    Counter(Counter),
    Relay(Relay),
    Caller(Caller),
    Parent(Parent),
    Silent(Silent),
    Failer(Failer),
}

impl HostVerticle {
    fn react(&mut self, task: &Task, acts: &mut Acts<HostRule>) -> Result<End, NoMemory>
        requires { acts.old ≡ [] }
        ensures state { state_in self.new ≡ (due_from (kind_in self.old) (settings_in self.old) (own_in self.old) task.now).later }
        ensures done { IfOk result (λ end. record { later = state_in self.new; acts = acts.new; end = end } ≡ due_from (kind_in self.old) (settings_in self.old) (own_in self.old) task.now) }
        ensures none { OnErr result (acts.new ≡ []) }
    {
        match self {
            HostVerticle::Echo(echo) => echo.react(task, acts),
            HostVerticle::Counter(counter) => counter.react(task, acts),
            HostVerticle::Relay(relay) => relay.react(task, acts),
            HostVerticle::Caller(caller) => caller.react(task, acts),
            HostVerticle::Parent(parent) => parent.react(task, acts),
            HostVerticle::Silent(silent) => silent.react(task, acts),
            HostVerticle::Failer(failer) => Ok(failer.react(task)),
        }
    }
}

impl Verticle for HostVerticle {
    type Rule = HostRule;

    ghost state = { state_in };

    ghost reacts = { Reacts };

    ghost told = { Told };

    fn handle(&mut self, event: &Event, acts: &mut Acts<HostRule>) -> End {
        match self.react(&event.task, acts) {
            Ok(end) => end,
            Err(NoMemory) => End::NoMemory,
        }
    }

    fn outcome(&mut self, _act_no: u32, _answer: &ActResult) {}

    fn tell(&self) -> Result<Numbers, NoMemory> {
        match self {
            HostVerticle::Echo(echo) => state_of(echo.alloc, 0, &echo.settings, &[]),
            HostVerticle::Counter(counter) => {
                state_of(counter.alloc, 1, &counter.settings, &[counter.count])
            }
            HostVerticle::Relay(relay) => state_of(relay.alloc, 2, &relay.settings, &[]),
            HostVerticle::Caller(caller) => state_of(caller.alloc, 4, &caller.settings, &[]),
            HostVerticle::Parent(parent) => state_of(parent.alloc, 5, &parent.settings, &[]),
            HostVerticle::Silent(silent) => state_of(silent.alloc, 7, &silent.settings, &[]),
            HostVerticle::Failer(failer) => state_of(failer.alloc, 9, &failer.settings, &[]),
        }
    }
}
