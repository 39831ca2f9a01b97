ghost use Rattle.std.specs.Prelude.{◌≡◌, map, filter, find};
ghost use Rattle.vx_life.specs.Stores.{is_record_of, deploy_told, undeploy_told, failure_of, telling, failing, without_id};

use vx_data::{ContextId, DeploymentId};
use vx_message::DoneResult;

/// What is kept of a deployment, gone or not.
#[derive(Clone, Copy)]
pub struct DeploymentRecord {
    pub id: DeploymentId,
    /// The context that is told that it was deployed.
    pub deploy_tell: Option<ContextId>,
    /// The context that is told that it is gone: that of its first Undeploy.
    pub undeploy_tell: Option<ContextId>,
    /// How its first start that failed did.
    pub failure: Option<DoneResult>,
}

/// The context that is told that a deployment was made.
pub fn deploy_told(records: &[DeploymentRecord], id: DeploymentId) -> Option<ContextId>
    ensures { result ≡ deploy_told id records.now }
{
    record_of(records, id)?.deploy_tell
}

/// The context that is told that a deployment is gone.
pub fn undeploy_told(records: &[DeploymentRecord], id: DeploymentId) -> Option<ContextId>
    ensures { result ≡ undeploy_told id records.now }
{
    record_of(records, id)?.undeploy_tell
}

/// How the first start of a deployment that failed did.
pub fn failure_of(records: &[DeploymentRecord], id: DeploymentId) -> Option<DoneResult>
    ensures { result ≡ failure_of id records.now }
{
    record_of(records, id)?.failure
}

fn record_of(records: &[DeploymentRecord], id: DeploymentId) -> Option<DeploymentRecord>
    ensures { result ≡ find (is_record_of id) records.now }
{
    records.iter().copied().find(|record| id == record.id)
}

/// Notes the context that is told that a deployment is gone, where none is noted.
pub fn note_tell(records: &mut Vec<DeploymentRecord>, id: DeploymentId, tell: Option<ContextId>)
    ensures { records.new.items ≡ map (telling id tell) records.old.items }
{
    for record in records.iter_mut() {
        if id == record.id {
            record.undeploy_tell = record.undeploy_tell.or(tell);
        }
    }
}

/// Notes how a start of a deployment failed, where none is noted.
pub fn note_failure(records: &mut Vec<DeploymentRecord>, id: DeploymentId, failure: DoneResult)
    ensures { records.new.items ≡ map (failing id failure) records.old.items }
{
    for record in records.iter_mut() {
        if id == record.id {
            record.failure = record.failure.or(Some(failure));
        }
    }
}

/// Leaves out a deployment.
pub fn leave_out_id(ids: &mut Vec<DeploymentId>, id: DeploymentId)
    ensures { ids.new.items ≡ without_id id ids.old.items }
{
    ids.retain(|other| id != *other);
}
