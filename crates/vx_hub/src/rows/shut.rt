//! Calls that are made no more once the hub is closed.
ghost use Rattle.std.specs.Prelude.{◌≡◌, List};
ghost use Rattle.vx_call.specs.declared.history.Traced.{Traced};
ghost use Rattle.vx_call.specs.Closings.{hub_closed_at};
ghost use Rattle.vx_call.specs.Refusals as machine;
ghost use Rattle.vx_life.specs.Stands.{LifeStands};
ghost use Rattle.vx_hub.specs.Shutting.{outlives};

use vx_call::{Call, Refusal};
use vx_life::Life;

/// `HostClosed`, where the hub is closed.
pub fn closed(life: &Life) -> Option<Refusal>
    ensures { (history : List Traced) → LifeStands life.now history → result ≡ machine.shut_since (hub_closed_at history) }
{
    match life.closed_at() {
        Some(at) => Some(Refusal::HostClosed(at)),
        None => None,
    }
}

// Whether a call is made behind the closing of the hub too.
fn outlives(call: &Call) -> bool
    ensures { result ≡ outlives call.now }
{
    matches!(
        call,
        Call::NewPass
            | Call::Take(_)
            | Call::Finish(_)
            | Call::FrameIn(_, _)
            | Call::TakeOut(_)
            | Call::CloseConn(_)
    )
}

/// ... for a call that is made no more then.
pub fn shut(life: &Life, call: &Call) -> Option<Refusal>
    ensures { (history : List Traced) → LifeStands life.now history → result ≡ machine.shut history call.now }
{
    if outlives(call) { None } else { closed(life) }
}
