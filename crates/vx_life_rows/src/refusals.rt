//! Why calls are refused that deploy, undeploy, end starts and stops, set loops and close the hub.

ghost use Rattle.std.specs.Prelude.{◌≡◌, List, is_some, not, true};
ghost use Rattle.vx_data.specs.declared.ids.PassNo.{PassNo};
ghost use Rattle.vx_call.specs.declared.history.Traced.{Traced};
ghost use Rattle.vx_call.specs.Held.{held_context};
ghost use Rattle.vx_call.specs.Deployments.{held_deployment};
ghost use Rattle.vx_call.specs.Refusals as machine;
ghost use Rattle.vx_call.specs.declared.reply.Refusal.TheVariants as refusals;
ghost use Rattle.vx_life.specs.Stores.{is_taken};
ghost use Rattle.vx_life.specs.Stands.{LifeStands};

use vx_call::Refusal;
use vx_data::{ContextId, DeploymentId};
use vx_life::Life;

/// `NoDeployment`, where the deployment is gone or never was.
pub fn no_deployment(life: &Life, id: DeploymentId) -> Option<Refusal>
    ensures { (history : List Traced) → LifeStands life.now history → result ≡ machine.no_deployment history id }
{
    if life.is_gone(id) {
        Some(Refusal::NoDeployment)
    } else {
        None
    }
}

/// `Stopping`, where the deployment was asked to end.
pub fn stopping(life: &Life, id: DeploymentId) -> Option<Refusal>
    ensures { (history : List Traced) → LifeStands life.now history → result ≡ machine.stopping history id }
{
    match life.asked(id) {
        Some(at) => Some(Refusal::Stopping(at)),
        None => None,
    }
}

/// `Stopping`, where the deployment of the verticle that makes the call was asked to end.
pub fn holder_stopping(life: &Life, holder: Option<DeploymentId>) -> Option<Refusal>
    ensures { (history : List Traced) (pass : PassNo) → LifeStands life.now history → holder ≡ held_deployment history pass → result ≡ machine.holder_stopping history pass }
{
    match holder {
        Some(id) => stopping(life, id),
        None => None,
    }
}

/// `NotPending`, where the start of the verticle that makes the call has ended.
pub fn start_not_pending(life: &Life, holder: Option<ContextId>) -> Option<Refusal>
    ensures { (history : List Traced) (pass : PassNo) → LifeStands life.now history → holder ≡ held_context history pass → result ≡ machine.start_not_pending history pass }
{
    match holder {
        Some(context) if !life.is_unstarted(context) => Some(Refusal::NotPending),
        _ => None,
    }
}

/// `NotPending`, where the stop of the verticle that makes the call was not taken.
pub fn stop_not_pending(life: &Life, holder: Option<ContextId>) -> Option<Refusal>
    ensures { (history : List Traced) (pass : PassNo) → LifeStands life.now history → holder ≡ held_context history pass → is_some (held_deployment history pass) ≡ true → result ≡ machine.stop_not_pending history pass }
{
    match holder {
        Some(context) => not_taken(life, context),
        None => None,
    }
}

// `NotPending`, where the stop of a context was not taken.
fn not_taken(life: &Life, context: ContextId) -> Option<Refusal>
    ensures { result ≡ machine.refused_if (not (is_taken context life.now.stops)) refusals.NotPending }
{
    if life.is_stop_taken(context) {
        None
    } else {
        Some(Refusal::NotPending)
    }
}

/// `StillDeployed`, where a deployment is there: the first.
pub fn still_deployed(life: &Life) -> Option<Refusal>
    ensures { (history : List Traced) → LifeStands life.now history → result ≡ machine.still_deployed history }
{
    match life.first_there() {
        Some(id) => Some(Refusal::StillDeployed(id)),
        None => None,
    }
}

/// `BadCount`, where it is not 1 to 16 event loops that are to take turns.
pub fn bad_loops(count: u32) -> Option<Refusal>
    ensures { result ≡ machine.bad_count 16 count }
{
    if count == 0 || 16 < count {
        Some(Refusal::BadCount)
    } else {
        None
    }
}
