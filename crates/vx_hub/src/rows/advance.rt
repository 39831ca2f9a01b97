ghost use Rattle.std.specs.Prelude.{◌≡◌, ◌<◌, ◌^◌, max, List};
ghost use Rattle.vx_data.specs.declared.ids.PassNo.{PassNo};
ghost use Rattle.vx_call.specs.declared.call.Call.TheVariants as calls;
ghost use Rattle.vx_call.specs.declared.reply.Reply.TheVariants as replies;
ghost use Rattle.vx_call.specs.declared.history.Traced.{Traced};
ghost use Rattle.vx_context.specs.Stands.{IsNext};
ghost use Rattle.vx_bus_store.specs.Stands.{StoresStand, Follows, HavePlaces, IsAt};
ghost use Rattle.vx_hub.specs.Advancing.{HasAdvanced};

use vx_call::Reply;
use vx_context::Contexts;
use vx_core_bus::{Bus, time_out};
use vx_data::{EntryNo, MessageId, Moment};
use vx_timer::Timers;

/// Tells the time: it never goes back. Ends the requests whose time is up by then.
pub fn advance(
    contexts: &mut Contexts,
    timers: &mut Timers,
    bus: &mut Bus,
    now: &mut Moment,
    at: EntryNo,
    moment: Moment,
) -> Reply
    requires small { at.0 < 2 ^ 48 }
    requires places { HavePlaces contexts.old bus.old }
    ensures now { now.new ≡ max now.old moment }
    ensures follows { (history : List Traced) (pass : PassNo) → StoresStand contexts.old timers.old bus.old history → IsAt at now.old history → Follows contexts.new timers.new bus.new history pass (calls.Advance moment) result }
    ensures places { HavePlaces contexts.new bus.new }
    ensures owed { contexts.new.owed ≡ contexts.old.owed }
{
    *now = Moment::at(now.ms().max(moment.ms()));
    Reply::Fired(time_out_due(contexts, timers, bus, at, *now))
}

// Ends the requests whose time is up, by due moment and id, and says how many there were.
fn time_out_due(
    contexts: &mut Contexts,
    timers: &mut Timers,
    bus: &mut Bus,
    at: EntryNo,
    now: Moment,
) -> u64
    requires { HavePlaces contexts.old bus.old }
    ensures advanced { (history : List Traced) → StoresStand contexts.old timers.old bus.old history → IsNext at history → HasAdvanced contexts.old contexts.new timers.new bus.old bus.new history now result }
    ensures places { HavePlaces contexts.new bus.new }
    ensures owed { contexts.new.owed ≡ contexts.old.owed }
{
    let count = timers.count();
    for place in 0..count {
        match timers.due(now) {
            Some((_, id)) => time_out(contexts, bus, at, place as u64, MessageId(id)),
            None => return place as u64,
        }
    }
    count as u64
}
