ghost use Rattle.std.specs.Prelude.{◌≡◌, ◌≤◌, List};
ghost use Rattle.vx_timer.specs.declared.timers.Timer.{Timer};
ghost use Rattle.vx_call.specs.declared.call.Call.TheVariants as calls;
ghost use Rattle.vx_call.specs.declared.history.Traced.{Traced};
ghost use Rattle.vx_call.specs.History.{plain_entry, no_mark};
ghost use Rattle.vx_call.specs.Machine.{IsLegal};
ghost use Rattle.vx_context.specs.Stands.{IsNext};
ghost use Rattle.vx_bus_store.specs.Stores.{BusStore};
ghost use Rattle.vx_core_life.specs.Moving.{promised};
ghost use Rattle.vx_core_life.specs.Stands.{AllStand, AreOfOneLife, LivesFollow};

use crate::moving::move_on;
use crate::refusals::undeploy_refusal;
use vx_call::Reply;
use vx_context::Contexts;
use vx_data::{ContextId, DeploymentId, EntryNo, PassNo};
use vx_life::Life;

/// Asks a deployment to end, with all below it, and notes the context that is told as it is gone. It takes no memory.
pub fn undeploy(
    life: &mut Life,
    contexts: &mut Contexts,
    at: EntryNo,
    pass: PassNo,
    deployment: DeploymentId,
    tell: Option<ContextId>,
) -> Reply
    requires one { AreOfOneLife life.old contexts.old }
    requires owed { promised life.old ≤ contexts.old.owed }
    ensures follows { (history : List Traced) (timers : List Timer) (bus : BusStore) → AllStand life.old contexts.old timers bus history → IsLegal history → IsNext at history → LivesFollow life.new contexts.new timers bus history (plain_entry pass (calls.Undeploy deployment tell) result no_mark) }
    ensures owed { promised life.new ≤ contexts.new.owed }
    ensures room { contexts.old.room ≤ contexts.new.room }
{
    if let Some(refusal) = undeploy_refusal(life, contexts, pass, deployment, tell) {
        return Reply::Refused(refusal);
    }
    life.ask(deployment, tell, at);
    move_on(life, contexts, at, 0);
    Reply::Done
}
