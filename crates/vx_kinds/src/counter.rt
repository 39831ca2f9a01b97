ghost use Rattle.std.specs.Prelude.{◌≡◌, [], IfOk, OnErr};
ghost use Rattle.vx_kinds.specs.Kinds as kinds;

use crate::only::{register, reply};
use crate::rule::HostRule;
use crate::settings::Settings;
use std::alloc::Global;
use vx_data::{Body, NoMemory};
use vx_verticle::{Acts, End, Task};

/// Counts the messages at its address, and replies to a request with the count.
#[derive(Drop)]
pub struct Counter {
    pub(crate) settings: Settings,
    pub(crate) count: i64,
    pub(crate) alloc: Global,
}

impl Counter {
    pub(crate) fn react(&mut self, task: &Task, acts: &mut Acts<HostRule>) -> Result<End, NoMemory>
        requires { acts.old ≡ [] }
        ensures settings { self.new.settings ≡ self.old.settings }
        ensures count { self.new.count ≡ kinds.count_after task.now self.old.count }
        ensures done { IfOk result (λ end. record { acts = acts.new; end = end } ≡ kinds.counter self.new.settings self.new.count task.now) }
        ensures none { OnErr result (acts.new ≡ []) }
    {
        match task {
            Task::Start(_) => register(self.alloc, &self.settings, acts)?,
            Task::Deliver {
                consumer: _,
                message,
            } => {
                self.count = self.count.saturating_add(1);
                if message.request {
                    reply(self.alloc, message.id, Body::int(self.count), acts)?;
                }
            }
            _ => {}
        }
        Ok(End::Done)
    }
}
