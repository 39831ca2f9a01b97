ghost use Rattle.std.specs.Prelude.{◌≡◌, [], IfOk, OnErr};
ghost use Rattle.vx_kinds.specs.Kinds as kinds;

use crate::only::{only, register};
use crate::rule::HostRule;
use crate::settings::Settings;
use std::alloc::Global;
use vx_data::NoMemory;
use vx_message::Options;
use vx_verticle::{Act, Acts, End, PlainAct, Task};

/// Sends the body of each message at its address on to another.
#[derive(Drop)]
pub struct Relay {
    pub(crate) settings: Settings,
    pub(crate) alloc: Global,
}

impl Relay {
    pub(crate) fn react(&self, task: &Task, acts: &mut Acts<HostRule>) -> Result<End, NoMemory>
        requires { acts.old ≡ [] }
        ensures done { IfOk result (λ end. record { acts = acts.new; end = end } ≡ kinds.relay self.now.settings task.now) }
        ensures none { OnErr result (acts.new ≡ []) }
    {
        match task {
            Task::Start(_) => register(self.alloc, &self.settings, acts)?,
            Task::Deliver {
                consumer: _,
                message,
            } => {
                let send = PlainAct::Send {
                    address: self.settings.to.copy(self.alloc)?,
                    body: message.body.copy(self.alloc)?,
                    options: Options::none(self.alloc),
                };
                only(acts, Act::Plain(send))?;
            }
            _ => {}
        }
        Ok(End::Done)
    }
}
