//! What the bus does as time goes on.

ghost use Rattle.std.specs.Prelude.{◌≡◌, None, Some, find};
ghost use Rattle.vx_data.specs.declared.ids.ContextId.{ContextId};
ghost use Rattle.vx_request.specs.Stores.{is_request};
ghost use Rattle.vx_bus_store.specs.Stores.{asker_in};
ghost use Rattle.vx_bus_store.specs.Stands.{HavePlaces};
ghost use Rattle.vx_bus_delivery.specs.Ending.{IsLeftAlone, TimesOut};

use crate::outcomes::{put_outcome, timed_out};
use vx_bus_store::Bus;
use vx_context::Contexts;
use vx_data::{ContextId, EntryNo, MessageId};

/// Ends a request whose time is up, and makes its outcome, at this place among what the entry makes ready. One that is
/// not open is left as it is. It takes no memory.
pub fn time_out(contexts: &mut Contexts, bus: &mut Bus, at: EntryNo, place: u64, request: MessageId)
    requires { HavePlaces contexts.old bus.old }
    ensures ends { (asker : ContextId) → asker_in (find (is_request request) bus.old.requests.waiting) ≡ Some asker → TimesOut contexts.old contexts.new bus.old bus.new at place request asker }
    ensures left_alone { find (is_request request) bus.old.requests.waiting ≡ None → (contexts.new ≡ contexts.old) × IsLeftAlone bus.old bus.new }
    ensures places { HavePlaces contexts.new bus.new }
    ensures owed { contexts.new.owed ≡ contexts.old.owed }
{
    if let Some(asker) = bus.settle(request, at) {
        put_outcome(contexts, bus, at, place, request, asker, timed_out());
    }
}
