ghost use Rattle.std.specs.Prelude.{◌≡◌, ◌∷◌, [], IfOk, OnOk, OnErr};
ghost use Rattle.vx_kinds.specs.Kinds as kinds;

use crate::only::{end_start, only, up_to};
use crate::rule::HostRule;
use crate::settings::Settings;
use std::alloc::Global;
use vx_data::{NoMemory, Numbers, Text};
use vx_verticle::{Act, Acts, End, KindSpec, Task};

/// How many children a parent has at most.
const MAX_CHILDREN: u64 = 64;

/// Deploys echoes as it starts, and has started once they have.
#[derive(Drop)]
pub struct Parent {
    pub(crate) settings: Settings,
    pub(crate) alloc: Global,
}

impl Parent {
    /// Deploys as many echoes at its address as its first number says.
    fn deploy(&self, acts: &mut Acts<HostRule>) -> Result<(), NoMemory>
        requires { acts.old ≡ [] }
        ensures done { OnOk result (acts.new ≡ kinds.deploys self.now.settings ∷ []) }
        ensures none { OnErr result (acts.new ≡ []) }
    {
        let spec = KindSpec {
            kind: Text::constant("echo"),
            address: self.settings.address.copy(self.alloc)?,
            to: self.settings.address.copy(self.alloc)?,
            config: Numbers::new(self.alloc, &[])?,
        };
        let instances = up_to(MAX_CHILDREN, self.settings.number_or(1, 0)) as u32;
        let worker = false;
        only(
            acts,
            Act::Deploy {
                spec,
                instances,
                worker,
            },
        )
    }

    pub(crate) fn react(&self, task: &Task, acts: &mut Acts<HostRule>) -> Result<End, NoMemory>
        requires { acts.old ≡ [] }
        ensures done { IfOk result (λ end. record { acts = acts.new; end = end } ≡ kinds.parent self.now.settings task.now) }
        ensures none { OnErr result (acts.new ≡ []) }
    {
        match task {
            Task::Start(_) => {
                self.deploy(acts)?;
                Ok(End::Later)
            }
            Task::DeployEnd {
                deployment: _,
                result: ended,
            } => {
                end_start(*ended, acts)?;
                Ok(End::Done)
            }
            _ => Ok(End::Done),
        }
    }
}
