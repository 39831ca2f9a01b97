ghost use Rattle.std.specs.Prelude.{◌≡◌, ◌<◌, ◌≤◌, ◌+◌, ◌^◌, ℕ, List, length, None, IfOk, IfErr, OnOk, OnErr};
ghost use Rattle.vx_data.specs.Bodies.{tree_depth};
ghost use Rattle.vx_data.specs.HeaderLists.{header_bytes};
ghost use Rattle.vx_data.specs.declared.ids.PassNo.{PassNo};
ghost use Rattle.vx_call.specs.declared.call.Call.TheVariants as calls;
ghost use Rattle.vx_call.specs.declared.reply.Reply.TheVariants as replies;
ghost use Rattle.vx_call.specs.Rows.{request_refusal};
ghost use Rattle.vx_timer.specs.declared.timers.Timer.{Timer};
ghost use Rattle.vx_timer.specs.Order as timer_order;
ghost use Rattle.vx_call.specs.declared.history.Traced.{Traced};
ghost use Rattle.vx_bus_store.specs.Stands.{StoresStand, Follows, HavePlaces, HaveRoom, AreOfOneHistory, IsAt};
ghost use Rattle.vx_bus_delivery.specs.Ending.{EndsUnheard};

use vx_bus_delivery::{destination, make_room, no_handlers, pass_on, passage_for, put_outcome};
use vx_bus_refusals::request_refusal;
use vx_bus_store::Bus;
use vx_call::{Call, Options, Reply, To, Unmade};
use vx_context::Contexts;
use vx_data::{Body, ContextId, EntryNo, MessageId, NoMemory, PassNo, Text};
use vx_message::Owner;
use vx_request::OpenRequest;
use vx_timer::Timers;

/// Sends a request to the consumer whose turn it is. `now` is the moment of the history, in ms.
pub fn request(
    contexts: &mut Contexts,
    timers: &mut Timers,
    bus: &mut Bus,
    at: EntryNo,
    now: u64,
    pass: PassNo,
    context: ContextId,
    address: Text,
    body: Body,
    options: Options,
    timeout: u64,
) -> Result<Reply, Unmade>
    requires small { at.0 < 2 ^ 48 }
    requires early { now ≤ 2 ^ 62 }
    requires places { HavePlaces contexts.old bus.old }
    requires one { AreOfOneHistory contexts.old timers.old bus.old }
    ensures ok { IfOk result (λ reply. (history : List Traced) → StoresStand contexts.old timers.old bus.old history → IsAt at now history → Follows contexts.new timers.new bus.new history pass (Call.Request context address body options timeout None) reply) }
    ensures err { OnErr result ((history : List Traced) → StoresStand contexts.old timers.old bus.old history → StoresStand contexts.new timers.new bus.new history) }
    ensures back { IfErr result (λ unmade. unmade.call ≡ Call.Request context address body options timeout None) }
    ensures places { HavePlaces contexts.new bus.new }
    ensures owed { contexts.new.owed ≡ contexts.old.owed }
{
    if let Some(refusal) = request_refusal(
        contexts, bus, pass, context, &address, &body, &options, timeout,
    ) {
        return Ok(Reply::Refused(refusal));
    }
    let due = now + timeout;
    match ask(
        contexts, timers, bus, at, due, context, &address, &body, &options,
    ) {
        Ok(to) => Ok(Reply::Asked(to)),
        Err(NoMemory) => Err(Unmade {
            call: Call::Request {
                context,
                address,
                body,
                options,
                timeout,
                once: None,
            },
        }),
    }
}

// Sends a request that is not refused. `due` is in ms.
fn ask(
    contexts: &mut Contexts,
    timers: &mut Timers,
    bus: &mut Bus,
    at: EntryNo,
    due: u64,
    context: ContextId,
    address: &Text,
    body: &Body,
    options: &Options,
) -> Result<To, NoMemory>
    requires small { at.0 < 2 ^ 48 }
    requires places { HavePlaces contexts.old bus.old }
    requires one { AreOfOneHistory contexts.old timers.old bus.old }
    requires deep { tree_depth body.now ≤ 100 }
    requires pairs { length options.now.headers ≤ 1024 }
    requires bytes { header_bytes options.now.headers ≤ 65536 }
    ensures ok { IfOk result (λ to. (history : List Traced) (pass : PassNo) (now timeout : ℕ) → StoresStand contexts.old timers.old bus.old history → IsAt at now history → due ≡ now + timeout → request_refusal history pass context address.now body.now options.now timeout ≡ None → Follows contexts.new timers.new bus.new history pass (calls.Request context address.now body.now options.now timeout None) (replies.Asked to)) }
    ensures err { OnErr result ((history : List Traced) → StoresStand contexts.old timers.old bus.old history → StoresStand contexts.new timers.new bus.new history) }
    ensures places { HavePlaces contexts.new bus.new }
    ensures owed { contexts.new.owed ≡ contexts.old.owed }
{
    let passage = passage_for(bus, at, address, body, options, true, false)?;
    let to = destination(bus, &passage, address);
    match to {
        To::Consumer(consumer) => {
            let home = bus.home(consumer);
            prepare_request(contexts, timers, bus, at, due, 1)?;
            pass_on(contexts, bus, at, passage, address, to);
            bus.open(OpenRequest {
                id: MessageId(at),
                asker: Owner::Context(context),
                receiver: Some(consumer),
                home,
            });
        }
        _ => {
            ask_nobody(contexts, bus, at, context)?;
            pass_on(contexts, bus, at, passage, address, to);
        }
    }
    Ok(to)
}

// Ends a request that reaches nobody, and makes its outcome.
fn ask_nobody(
    contexts: &mut Contexts,
    bus: &mut Bus,
    at: EntryNo,
    context: ContextId,
) -> Result<(), NoMemory>
    requires { HavePlaces contexts.old bus.old }
    ensures ok { OnOk result (EndsUnheard contexts.old contexts.new bus.old bus.new at context) }
    ensures err { OnErr result ((history : List Traced) (timers : List Timer) → StoresStand contexts.old timers bus.old history → StoresStand contexts.new timers bus.new history) }
    ensures places { HavePlaces contexts.new bus.new }
    ensures owed { contexts.new.owed ≡ contexts.old.owed }
{
    let id = MessageId(at);
    make_room(contexts, bus, 1)?;
    bus.end_unheard(id, at)?;
    put_outcome(contexts, bus, at, 0, id, context, no_handlers());
    Ok(())
}

/// Makes room for a request with its outcome, and for so many tasks more, and sets its timer. `due` is in ms.
pub fn prepare_request(
    contexts: &mut Contexts,
    timers: &mut Timers,
    bus: &mut Bus,
    at: EntryNo,
    due: u64,
    more: usize,
) -> Result<(), NoMemory>
    requires few { more ≤ 1 }
    requires places { HavePlaces contexts.old bus.old }
    ensures keeps { (history : List Traced) (others : List Timer) → StoresStand contexts.old others bus.old history → StoresStand contexts.new others bus.new history }
    ensures same_bus { bus.new ≡ record bus.old { requests = record bus.old.requests { room = bus.new.requests.room }; given = bus.new.given; room = bus.new.room } }
    ensures timer { OnOk result (timers.new ≡ timer_order.put (record { id = at; due = due; period = None }) timers.old) }
    ensures room { OnOk result (HaveRoom contexts.new bus.new (more + 1)) }
    ensures requests { OnOk result (0 < bus.new.requests.room) }
    ensures err { OnErr result (timers.new ≡ timers.old) }
    ensures places { HavePlaces contexts.new bus.new }
    ensures owed { contexts.new.owed ≡ contexts.old.owed }
{
    make_room(contexts, bus, more + 1)?;
    bus.reserve_request()?;
    timers.set(at, due, None)
}
