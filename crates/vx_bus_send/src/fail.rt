ghost use Rattle.std.specs.Prelude.{◌≡◌, List};
ghost use Rattle.vx_call.specs.declared.history.Traced.{Traced};
ghost use Rattle.vx_context.specs.Stands.{IsNext};
ghost use Rattle.vx_bus_store.specs.Stands.{StoresStand, Follows, HavePlaces};
ghost use Rattle.vx_call.specs.declared.call.Call.TheVariants as calls;

use vx_bus_delivery::settle;
use vx_bus_refusals::fail_refusal;
use vx_bus_store::Bus;
use vx_call::Reply;
use vx_context::Contexts;
use vx_data::{EntryNo, MessageId, PassNo, Text};
use vx_message::{Failure, FailureKind, Outcome};
use vx_timer::Timers;

/// Fails a request. It takes no memory.
pub fn fail(
    contexts: &mut Contexts,
    timers: &mut Timers,
    bus: &mut Bus,
    at: EntryNo,
    pass: PassNo,
    message: MessageId,
    code: i32,
    text: Text,
) -> Reply
    requires places { HavePlaces contexts.old bus.old }
    ensures follows { (history : List Traced) → StoresStand contexts.old timers.old bus.old history → IsNext at history → Follows contexts.new timers.new bus.new history pass (calls.Fail message code text) result }
    ensures places { HavePlaces contexts.new bus.new }
    ensures owed { contexts.new.owed ≡ contexts.old.owed }
{
    if let Some(refusal) = fail_refusal(contexts, bus, pass, message, &text) {
        return Reply::Refused(refusal);
    }
    let kind = FailureKind::RecipientFailure;
    let outcome = Outcome::Failed(Failure { kind, code, text });
    settle(contexts, timers, bus, at, message, outcome);
    Reply::Done
}
