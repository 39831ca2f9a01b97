ghost use Rattle.std.specs.Prelude.{◌≡◌, ◌∷◌, [], IfOk, OnOk, OnErr};
ghost use Rattle.vx_kinds.specs.Kinds as kinds;

use crate::only::{end_start, only, up_to};
use crate::rule::HostRule;
use crate::settings::Settings;
use std::alloc::Global;
use vx_data::{Body, NoMemory};
use vx_message::{DoneResult, Options, Outcome};
use vx_verticle::{Act, Acts, End, PlainAct, Task};

/// The longest timeout, in ms.
const MAX_TIMEOUT: u64 = 1_000_000_000_000;

/// The timeout, in ms, of a caller without one.
const TIMEOUT: i64 = 30_000;

/// Sends a request as it starts, and has started once the reply is there.
#[derive(Drop)]
pub struct Caller {
    pub(crate) settings: Settings,
    pub(crate) alloc: Global,
}

/// How a start ends that waits for this outcome.
fn result_of(outcome: &Outcome) -> DoneResult
    ensures { result ≡ kinds.result_of outcome.now }
{
    match outcome {
        Outcome::Ok {
            headers: _,
            body: _,
            again: _,
        } => DoneResult::Ok,
        Outcome::Failed(failure) => DoneResult::Fail(failure.code),
    }
}

impl Caller {
    /// Sends its first number, with its second one as the timeout in ms.
    fn ask(&self, acts: &mut Acts<HostRule>) -> Result<(), NoMemory>
        requires { acts.old ≡ [] }
        ensures done { OnOk result (acts.new ≡ kinds.asks self.now.settings ∷ []) }
        ensures none { OnErr result (acts.new ≡ []) }
    {
        let request = PlainAct::Request {
            address: self.settings.address.copy(self.alloc)?,
            body: Body::int(self.settings.number_or(1, 0)),
            options: Options::none(self.alloc),
            timeout: up_to(MAX_TIMEOUT, self.settings.number_or(TIMEOUT, 1)),
        };
        only(acts, Act::Plain(request))
    }

    pub(crate) fn react(&self, task: &Task, acts: &mut Acts<HostRule>) -> Result<End, NoMemory>
        requires { acts.old ≡ [] }
        ensures done { IfOk result (λ end. record { acts = acts.new; end = end } ≡ kinds.caller self.now.settings task.now) }
        ensures none { OnErr result (acts.new ≡ []) }
    {
        match task {
            Task::Start(_) => {
                self.ask(acts)?;
                Ok(End::Later)
            }
            Task::Outcome {
                request: _,
                outcome,
            } => {
                end_start(result_of(outcome), acts)?;
                Ok(End::Done)
            }
            _ => Ok(End::Done),
        }
    }
}
