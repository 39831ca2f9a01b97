//! The hub closes.
ghost use Rattle.std.specs.Prelude.{◌≡◌, ◌≤◌, List};
ghost use Rattle.vx_call.specs.declared.call.Call.TheVariants as calls;
ghost use Rattle.vx_call.specs.declared.history.Traced.{Traced};
ghost use Rattle.vx_call.specs.History.{plain_entry, no_mark};
ghost use Rattle.vx_call.specs.Machine.{IsLegal};
ghost use Rattle.vx_context.specs.Stands.{IsNext};
ghost use Rattle.vx_bus_store.specs.Stands.{HavePlaces};
ghost use Rattle.vx_core_life.specs.Moving.{promised};
ghost use Rattle.vx_core_life.specs.Stands.{AllStand, LivesFollow};

use vx_bus_closing::close_bus;
use vx_bus_store::Bus;
use vx_call::Reply;
use vx_context::Contexts;
use vx_data::{EntryNo, PassNo};
use vx_life::Life;
use vx_life_rows::still_deployed;
use vx_timer::Timers;

/// Closes the hub, where no deployment is there: all contexts close. It takes no memory.
pub fn close(
    life: &mut Life,
    contexts: &mut Contexts,
    timers: &mut Timers,
    bus: &mut Bus,
    at: EntryNo,
    pass: PassNo,
) -> Reply
    requires places { HavePlaces contexts.old bus.old }
    requires owed { promised life.old ≤ contexts.old.owed }
    ensures follows { (history : List Traced) → AllStand life.old contexts.old timers.old bus.old history → IsLegal history → IsNext at history → LivesFollow life.new contexts.new timers.new bus.new history (plain_entry pass calls.Close result no_mark) }
    ensures places { HavePlaces contexts.new bus.new }
    ensures owed { promised life.new ≤ contexts.new.owed }
{
    if let Some(refusal) = still_deployed(life) {
        return Reply::Refused(refusal);
    }
    close_bus(contexts, timers, bus, at);
    life.close(at);
    Reply::Done
}
