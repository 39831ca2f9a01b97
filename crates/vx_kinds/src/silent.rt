ghost use Rattle.std.specs.Prelude.{◌≡◌, [], IfOk, OnErr};
ghost use Rattle.vx_kinds.specs.Kinds as kinds;

use crate::only::register;
use crate::rule::HostRule;
use crate::settings::Settings;
use std::alloc::Global;
use vx_data::NoMemory;
use vx_verticle::{Acts, End, Task};

/// Takes the messages at its address, and does nothing.
#[derive(Drop)]
pub struct Silent {
    pub(crate) settings: Settings,
    pub(crate) alloc: Global,
}

impl Silent {
    pub(crate) fn react(&self, task: &Task, acts: &mut Acts<HostRule>) -> Result<End, NoMemory>
        requires { acts.old ≡ [] }
        ensures done { IfOk result (λ end. record { acts = acts.new; end = end } ≡ kinds.silent self.now.settings task.now) }
        ensures none { OnErr result (acts.new ≡ []) }
    {
        if let Task::Start(_) = task {
            register(self.alloc, &self.settings, acts)?;
        }
        Ok(End::Done)
    }
}
