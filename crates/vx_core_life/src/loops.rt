//! Event loops and worker pools are set.
ghost use Rattle.std.specs.Prelude.{◌≡◌, List, IfOk, IfErr, OnErr};
ghost use Rattle.vx_timer.specs.declared.timers.Timer.{Timer};
ghost use Rattle.vx_call.specs.declared.call.Call.TheVariants as calls;
ghost use Rattle.vx_call.specs.declared.history.Traced.{Traced};
ghost use Rattle.vx_call.specs.History.{plain_entry, no_mark};
ghost use Rattle.vx_call.specs.Machine.{IsLegal};
ghost use Rattle.vx_context.specs.Stands.{IsNext};
ghost use Rattle.vx_bus_store.specs.Stores.{BusStore};
ghost use Rattle.vx_core_life.specs.Moving.{promised};
ghost use Rattle.vx_core_life.specs.Stands.{AllStand, LivesFollow};

use crate::refusals::{add_pool_refusal, set_loops_refusal};
use vx_call::{Call, Reply, Unmade};
use vx_context::Contexts;
use vx_data::{EntryNo, PassNo, PoolId, Text};
use vx_life::Life;
use vx_message::Pool;

/// So many event loops take turns from now on. It takes no memory.
pub fn set_loops(life: &mut Life, contexts: &Contexts, pass: PassNo, count: u32) -> Reply
    ensures follows { (history : List Traced) (timers : List Timer) (bus : BusStore) → AllStand life.old contexts.now timers bus history → LivesFollow life.new contexts.now timers bus history (plain_entry pass (calls.SetLoops count) result no_mark) }
    ensures promised { promised life.new ≡ promised life.old }
{
    if let Some(refusal) = set_loops_refusal(contexts, pass, count) {
        return Reply::Refused(refusal);
    }
    life.set_loops(count);
    Reply::Done
}

/// Adds a worker pool with a name. It fails where memory runs out.
pub fn add_pool(
    life: &Life,
    contexts: &mut Contexts,
    at: EntryNo,
    pass: PassNo,
    name: Text,
    size: u32,
) -> Result<Reply, Unmade>
    ensures ok { IfOk result (λ reply. (history : List Traced) (timers : List Timer) (bus : BusStore) → AllStand life.now contexts.old timers bus history → IsNext at history → LivesFollow life.now contexts.new timers bus history (plain_entry pass (calls.AddPool name size) reply no_mark)) }
    ensures err { OnErr result (contexts.new ≡ contexts.old) }
    ensures back { IfErr result (λ unmade. unmade.call ≡ Call.AddPool name size) }
    ensures owed { contexts.new.owed ≡ contexts.old.owed }
    ensures room { contexts.new.room ≡ contexts.old.room }
{
    if let Some(refusal) = add_pool_refusal(contexts, pass, &name, size) {
        return Ok(Reply::Refused(refusal));
    }
    let id = PoolId(at);
    match contexts.add_pool(Pool { id, name, size }) {
        Ok(()) => Ok(Reply::Pool(id)),
        Err(Pool { name, size, .. }) => Err(Unmade {
            call: Call::AddPool { name, size },
        }),
    }
}
