ghost use Rattle.std.specs.Prelude.{◌≡◌, ◌<◌, ◌≤◌, ◌+◌, [], ◌∷◌, ◌++◌, ℕ, IfOk};
ghost use Rattle.vx_data.specs.Bodies.{tree_depth};
ghost use Rattle.vx_message.specs.declared.Outcome.TheVariants as outcomes;
ghost use Rattle.vx_bus_store.specs.Stores.{coded_in};
ghost use Rattle.vx_message.specs.declared.ItemKind.TheVariants as kinds;
ghost use Rattle.vx_call.specs.declared.reply.Task.TheVariants as tasks;
ghost use Rattle.vx_call.specs.Settled as machine;
ghost use Rattle.vx_context.specs.Stores.{handler_item};
ghost use Rattle.vx_bus_store.specs.Stands.{HavePlaces, HaveRoom};
ghost use Rattle.vx_bus_delivery.specs.Ending.{Settles};

use crate::passages::coded;
use vx_bus_store::Bus;
use vx_call::{Options, Task};
use vx_context::Contexts;
use vx_data::{Body, ContextId, EntryNo, MessageId, NoMemory, Text};
use vx_message::{Failure, FailureKind, ItemKind, Outcome};
use vx_timer::Timers;

/// The outcome of a request that nobody can answer.
pub fn no_handlers() -> Outcome
    ensures { result ≡ machine.no_handlers }
{
    Outcome::Failed(Failure {
        kind: FailureKind::NoHandlers,
        code: -1,
        text: Text::constant("no_handlers"),
    })
}

/// The outcome of a request whose time is up.
pub fn timed_out() -> Outcome
    ensures { result ≡ machine.timeout }
{
    Outcome::Failed(Failure {
        kind: FailureKind::Timeout,
        code: -1,
        text: Text::constant("timeout"),
    })
}

/// The outcome of a request that is replied to: a copy of the headers, and of the body as its codec leaves it.
pub fn replied(
    bus: &Bus,
    body: &Body,
    options: &Options,
    again: Option<MessageId>,
) -> Result<Outcome, NoMemory>
    requires { tree_depth body.now ≤ 100 }
    ensures { IfOk result (λ outcome. outcome ≡ outcomes.Ok options.now.headers (coded_in bus.now.codecs options.now.codec body.now) again) }
{
    Ok(Outcome::Ok {
        headers: options.headers.copy(bus.alloc())?,
        body: coded(bus, body, options)?,
        again,
    })
}

/// Makes the outcome of a request ready for the context that asked.
pub fn put_outcome(
    contexts: &mut Contexts,
    bus: &mut Bus,
    at: EntryNo,
    place: u64,
    request: MessageId,
    asker: ContextId,
    outcome: Outcome,
)
    requires items { 0 < contexts.old.room }
    requires tasks { 0 < bus.old.room }
    ensures items { contexts.new ≡ record contexts.old { waiting = contexts.old.waiting ++ handler_item contexts.old.made at place asker (kinds.Outcome request) ∷ []; room = contexts.new.room } }
    ensures tasks { bus.new ≡ record bus.old { tasks = bus.old.tasks ++ tasks.Outcome request outcome ∷ []; room = bus.new.room } }
    ensures items_room { contexts.old.room ≤ contexts.new.room + 1 }
    ensures tasks_room { bus.old.room ≤ bus.new.room + 1 }
{
    contexts.put(at, place, asker, ItemKind::Outcome(request));
    bus.put(Task::Outcome { request, outcome });
}

/// Ends a request with this outcome, where it is open.
pub fn settle(
    contexts: &mut Contexts,
    timers: &mut Timers,
    bus: &mut Bus,
    at: EntryNo,
    request: MessageId,
    outcome: Outcome,
)
    requires { HavePlaces contexts.old bus.old }
    ensures settled { Settles contexts.old contexts.new timers.old timers.new bus.old bus.new at request outcome }
    ensures room { (more : ℕ) → HaveRoom contexts.old bus.old more → HaveRoom contexts.new bus.new more }
    ensures requests { bus.old.requests.room ≤ bus.new.requests.room }
    ensures owed { contexts.new.owed ≡ contexts.old.owed }
{
    if let Some(asker) = bus.settle(request, at) {
        timers.cancel(request.0);
        put_outcome(contexts, bus, at, 0, request, asker, outcome);
    }
}
