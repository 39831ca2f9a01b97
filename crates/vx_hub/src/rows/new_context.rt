ghost use Rattle.std.specs.Prelude.{◌≡◌, List, IfOk, IfErr, OnErr};
ghost use Rattle.vx_call.specs.declared.history.Traced.{Traced};
ghost use Rattle.vx_call.specs.Built.{AreStored};
ghost use Rattle.vx_context.specs.Stands.{ContextsStand, ContextsFollow, IsNext};
ghost use Rattle.vx_core_tasks.specs.Named.{NameContexts};

use vx_call::{Call, Reply, Unmade};
use vx_context::{Contexts, already_holding};
use vx_data::{ContextId, EntryNo, PassNo};
use vx_message::{Context, Lane};

/// Makes an outside context of the pass.
pub fn new_context(contexts: &mut Contexts, at: EntryNo, pass: PassNo) -> Result<Reply, Unmade>
    ensures ok { IfOk result (λ reply. (history : List Traced) → ContextsStand contexts.old history → AreStored history → NameContexts history → IsNext at history → ContextsFollow contexts.new history pass Call.NewContext reply) }
    ensures room { contexts.new.room ≡ contexts.old.room }
    ensures owed { contexts.new.owed ≡ contexts.old.owed }
    ensures err { OnErr result (contexts.new ≡ contexts.old) }
    ensures back { IfErr result (λ unmade. unmade.call ≡ Call.NewContext) }
{
    if let Some(refusal) = already_holding(contexts, pass) {
        return Ok(Reply::Refused(refusal));
    }
    let id = ContextId {
        entry: at,
        instance: 0,
    };
    match contexts.add(Context {
        id,
        maker: Some(pass),
        lane: Lane::Own(id),
        jobs: Lane::Pool,
    }) {
        Ok(()) => Ok(Reply::Context(id)),
        Err(_) => Err(Unmade {
            call: Call::NewContext,
        }),
    }
}
