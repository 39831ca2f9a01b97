ghost use Rattle.std.specs.Prelude.{◌≡◌};
ghost use Rattle.vx_line.specs.Made.{first_call};

use vx_call::{Call, End};
use vx_data::{ContextId, Text};
use vx_message::{KindSpec, Lane};

/// How verticles are deployed. (`DeploymentOptions`.)
pub struct DeployOptions {
    /// On workers, and not on an event loop.
    pub worker: bool,
    /// The worker pool of this name, in place of the one without a name.
    pub pool: Option<Text>,
    /// The context that is told as all have started, or as the deployment is gone since one failed to start.
    pub tell: Option<ContextId>,
}

impl DeployOptions {
    /// The call that deploys so many verticles in this way.
    pub fn into_call(self, count: u64) -> Call
        ensures { result ≡ Call.Deploy self.worker self.pool self.tell count }
    {
        let DeployOptions { worker, pool, tell } = self;
        Call::Deploy {
            worker,
            pool,
            tell,
            count,
        }
    }
}

/// Written by hand, so that a function that lets go of the options has no case for each of them.
impl Drop for DeployOptions {
    fn drop(self) {
        let DeployOptions {
            worker: _,
            pool: _,
            tell: _,
        } = self;
    }
}

/// What a line has done.
pub enum Instruction {
    /// One call, which hands nothing out of the hub and nothing to it.
    Call(Call),
    /// Deploys so many verticles of a kind, at most 1,000 (the hub refuses more than 64).
    Deploy {
        options: DeployOptions,
        spec: KindSpec,
        instances: u32,
    },
    /// Takes the next task of a lane.
    Take(Lane),
    /// Ends the task that the pass holds. Its verticle goes back as it was taken.
    Finish(End),
    /// Takes the next task of a lane, runs its handler, makes the handler's acts, and ends the task.
    Work(Lane),
}

impl Instruction {
    /// The call that it begins with: of a Work the Take.
    pub fn into_first_call(self) -> Call
        ensures { result ≡ first_call self }
    {
        match self {
            Instruction::Call(call) => call,
            Instruction::Deploy {
                options,
                spec: _,
                instances,
            } => options.into_call(u64::from(instances)),
            Instruction::Take(lane) => Call::Take(lane),
            Instruction::Finish(end) => Call::Finish(end),
            Instruction::Work(lane) => Call::Take(lane),
        }
    }
}

/// Written by hand, so that a function that lets go of an instruction has no case for each of them.
impl Drop for Instruction {
    fn drop(self) {
        match self {
            Instruction::Call(call) => call.let_go(),
            Instruction::Deploy {
                options: _,
                spec: _,
                instances: _,
            } => {}
            Instruction::Take(_) => {}
            Instruction::Finish(_) => {}
            Instruction::Work(_) => {}
        }
    }
}
