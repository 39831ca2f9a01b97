ghost use Rattle.std.specs.Prelude.{◌≡◌, ◌&&◌, if◌then◌else◌, is_some, find, None, Some, length, List, [], ◌∷◌, ◌++◌};
ghost use Rattle.std.specs.Option.{option_or};
ghost use Rattle.vx_data.specs.declared.ids.ContextId.{ContextId};
ghost use Rattle.vx_data.specs.declared.ids.PassNo.{PassNo};
ghost use Rattle.vx_data.specs.Ids.{same_context};
ghost use Rattle.vx_request.specs.declared.leaver.Leaver.TheVariants as leavers;
ghost use Rattle.vx_call.specs.declared.call.Call.TheVariants as calls;
ghost use Rattle.vx_call.specs.declared.reply.Reply.TheVariants as replies;
ghost use Rattle.vx_call.specs.declared.history.Traced.{Traced};
ghost use Rattle.vx_call.specs.History.{plain_entry, no_mark};
ghost use Rattle.vx_call.specs.Contexts.{is_context_of};
ghost use Rattle.vx_call.specs.Closings.{ClosesOne};
ghost use Rattle.vx_call.specs.Machine.{IsLegal};
ghost use Rattle.vx_context.specs.Stands.{IsNext};
ghost use Rattle.vx_context.specs.Stores.{closed_in};
ghost use Rattle.vx_bus_store.specs.Stands.{StoresStand, HavePlaces};
ghost use Rattle.vx_bus_delivery.specs.Lost.{lost_rows};
ghost use Rattle.vx_bus_closing.specs.Closing.{Leaves, BusCloses};

use vx_bus_delivery::end_requests;
use vx_bus_store::Bus;
use vx_context::Contexts;
use vx_data::{ContextId, EntryNo};
use vx_request::Leaver;
use vx_timer::Timers;

/// Closes a context at an entry: its consumers end, the requests that it asked are dropped, and those whose message waits
/// for a handler of it fail, where another context asked; its tasks that wait are gone. Says how many outcomes were made
/// ready: what the entry makes ready besides comes at places from this one on. It takes no memory.
pub fn close_context(
    contexts: &mut Contexts,
    timers: &mut Timers,
    bus: &mut Bus,
    at: EntryNo,
    context: ContextId,
) -> u64
    requires places { HavePlaces contexts.old bus.old }
    ensures leaves { Leaves contexts.old contexts.new timers.old timers.new bus.old bus.new at (leavers.Context context) }
    ensures closed { (other : ContextId) → closed_in other contexts.new.closings ≡ option_or (closed_in other contexts.old.closings) (if same_context other context && is_some (find (is_context_of other) contexts.old.made) then Some at else None) }
    ensures count { result ≡ length (lost_rows (leavers.Context context) bus.old) }
    ensures closes { (history : List Traced) (new : Traced) → StoresStand contexts.old timers.old bus.old history → IsNext at history → IsLegal history → ClosesOne history new context → BusCloses contexts.new timers.new bus.new history new result }
    ensures places { HavePlaces contexts.new bus.new }
{
    let leaver = Leaver::Context(context);
    bus.leave(leaver, contexts.items());
    contexts.close(context, at);
    end_requests(contexts, timers, bus, at, leaver)
}

/// Closes all contexts at an entry, as the hub closes: no consumer, no task and no request is left, and no outcome is made.
/// It takes no memory.
pub fn close_bus(contexts: &mut Contexts, timers: &mut Timers, bus: &mut Bus, at: EntryNo)
    requires places { HavePlaces contexts.old bus.old }
    ensures leaves { Leaves contexts.old contexts.new timers.old timers.new bus.old bus.new at leavers.All }
    ensures closed { (other : ContextId) → closed_in other contexts.new.closings ≡ option_or (closed_in other contexts.old.closings) (if is_some (find (is_context_of other) contexts.old.made) then Some at else None) }
    ensures stands { (history : List Traced) (pass : PassNo) → StoresStand contexts.old timers.old bus.old history → IsNext at history → IsLegal history → StoresStand contexts.new timers.new bus.new (history ++ plain_entry pass calls.Close replies.Done no_mark ∷ []) }
    ensures places { HavePlaces contexts.new bus.new }
{
    bus.leave(Leaver::All, contexts.items());
    contexts.close_all(at);
    end_requests(contexts, timers, bus, at, Leaver::All);
}
