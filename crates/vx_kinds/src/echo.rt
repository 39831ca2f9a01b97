ghost use Rattle.std.specs.Prelude.{◌≡◌, [], IfOk, OnErr};
ghost use Rattle.vx_kinds.specs.Kinds as kinds;

use crate::only::{register, reply};
use crate::rule::HostRule;
use crate::settings::Settings;
use std::alloc::Global;
use vx_data::NoMemory;
use vx_verticle::{Acts, End, Task};

/// Replies to a request with its body.
#[derive(Drop)]
pub struct Echo {
    pub(crate) settings: Settings,
    pub(crate) alloc: Global,
}

impl Echo {
    pub(crate) fn react(&self, task: &Task, acts: &mut Acts<HostRule>) -> Result<End, NoMemory>
        requires { acts.old ≡ [] }
        ensures done { IfOk result (λ end. record { acts = acts.new; end = end } ≡ kinds.echo self.now.settings task.now) }
        ensures none { OnErr result (acts.new ≡ []) }
    {
        match task {
            Task::Start(_) => register(self.alloc, &self.settings, acts)?,
            Task::Deliver {
                consumer: _,
                message,
            } => {
                if message.request {
                    let body = message.body.copy(self.alloc)?;
                    reply(self.alloc, message.id, body, acts)?;
                }
            }
            _ => {}
        }
        Ok(End::Done)
    }
}
