ghost use Rattle.std.specs.Prelude.{◌≡◌, ◌<◌, ◌≤◌, ◌^◌, List, length, None, IfOk, IfErr, OnErr};
ghost use Rattle.vx_data.specs.Bodies.{tree_depth};
ghost use Rattle.vx_data.specs.HeaderLists.{header_bytes};
ghost use Rattle.vx_data.specs.declared.ids.ConsumerId.{ConsumerId};
ghost use Rattle.vx_call.specs.declared.call.Call.TheVariants as calls;
ghost use Rattle.vx_call.specs.declared.reply.Reply.TheVariants as replies;
ghost use Rattle.vx_call.specs.declared.reply.To.TheVariants as reached;
ghost use Rattle.vx_call.specs.declared.history.Traced.{Traced};
ghost use Rattle.vx_call.specs.Rows.{send_refusal};
ghost use Rattle.vx_context.specs.Stands.{IsNext};
ghost use Rattle.vx_bus_store.specs.Stands.{StoresStand, Follows, HavePlaces, AreOfOneHistory};

use vx_bus_delivery::{destination, make_room, pass_on, passage_for};
use vx_bus_refusals::send_refusal;
use vx_bus_store::Bus;
use vx_call::{Call, Options, Reply, To, Unmade};
use vx_context::Contexts;
use vx_data::{Body, EntryNo, NoMemory, PassNo, Text};
use vx_timer::Timers;

/// Sends a message to the consumer whose turn it is.
pub fn send(
    contexts: &mut Contexts,
    timers: &Timers,
    bus: &mut Bus,
    at: EntryNo,
    pass: PassNo,
    address: Text,
    body: Body,
    options: Options,
) -> Result<Reply, Unmade>
    requires small { at.0 < 2 ^ 48 }
    requires places { HavePlaces contexts.old bus.old }
    requires one { AreOfOneHistory contexts.old timers.now bus.old }
    ensures ok { IfOk result (λ reply. (history : List Traced) → StoresStand contexts.old timers.now bus.old history → IsNext at history → Follows contexts.new timers.now bus.new history pass (Call.Send address body options) reply) }
    ensures err { OnErr result ((history : List Traced) → StoresStand contexts.old timers.now bus.old history → StoresStand contexts.new timers.now bus.new history) }
    ensures back { IfErr result (λ unmade. unmade.call ≡ Call.Send address body options) }
    ensures places { HavePlaces contexts.new bus.new }
    ensures owed { contexts.new.owed ≡ contexts.old.owed }
{
    if let Some(refusal) = send_refusal(contexts, bus, pass, &address, &body, &options) {
        return Ok(Reply::Refused(refusal));
    }
    match send_on(contexts, timers, bus, at, pass, &address, &body, &options) {
        Ok(to) => Ok(Reply::Sent(to)),
        Err(NoMemory) => Err(Unmade {
            call: Call::Send {
                address,
                body,
                options,
            },
        }),
    }
}

// Sends a message that is not refused.
fn send_on(
    contexts: &mut Contexts,
    timers: &Timers,
    bus: &mut Bus,
    at: EntryNo,
    pass: PassNo,
    address: &Text,
    body: &Body,
    options: &Options,
) -> Result<To, NoMemory>
    requires small { at.0 < 2 ^ 48 }
    requires places { HavePlaces contexts.old bus.old }
    requires one { AreOfOneHistory contexts.old timers.now bus.old }
    requires deep { tree_depth body.now ≤ 100 }
    requires pairs { length options.now.headers ≤ 1024 }
    requires bytes { header_bytes options.now.headers ≤ 65536 }
    ensures ok { IfOk result (λ to. (history : List Traced) → StoresStand contexts.old timers.now bus.old history → IsNext at history → send_refusal history pass address.now body.now options.now ≡ None → Follows contexts.new timers.now bus.new history pass (calls.Send address.now body.now options.now) (replies.Sent to)) }
    ensures err { OnErr result ((history : List Traced) → StoresStand contexts.old timers.now bus.old history → StoresStand contexts.new timers.now bus.new history) }
    ensures places { HavePlaces contexts.new bus.new }
    ensures owed { contexts.new.owed ≡ contexts.old.owed }
{
    let passage = passage_for(bus, at, address, body, options, false, false)?;
    let to = destination(bus, &passage, address);
    make_room(contexts, bus, places_for(to))?;
    pass_on(contexts, bus, at, passage, address, to);
    Ok(to)
}

// For how many more tasks room is needed.
fn places_for(to: To) -> usize
    ensures { (id : ConsumerId) → to ≡ reached.Consumer id → result ≡ 1 }
{
    match to {
        To::Consumer(_) => 1,
        _ => 0,
    }
}
