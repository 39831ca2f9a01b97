//! A first program with the library: a context with one consumer, a message for it, and its handler.
#![tactic(auto)]

ghost use Rattle.std.specs.Prelude.{◌<◌};

use std::alloc::Global;
use std::io;
use vx_call::{Call, End, Lane, Options, Reply, Task, To, Unmade};
use vx_data::{Body, BodyView, ContextId, PassNo, Text};
use vx_hub::{Back, Hub, Taken};
use vx_kinds::HostVerticle;

/// The one caller.
const PASS: PassNo = PassNo(0);

/// The context in a reply, or none.
fn context_in(answer: Result<Reply, Unmade>) -> Option<ContextId> {
    match &answer {
        Ok(Reply::Context(context)) => Some(*context),
        _ => None,
    }
}

/// Whether a consumer was registered, or a message was sent to one.
fn is_made(answer: Result<Reply, Unmade>) -> bool {
    matches!(
        &answer,
        Ok(Reply::Consumer(_) | Reply::Sent(To::Consumer(_)))
    )
}

/// Makes a context with a consumer, and answers the context.
fn set_up(hub: &mut Hub<HostVerticle>) -> Option<ContextId>
    requires { 0 < hub.old.passes }
    ensures { 0 < hub.new.passes }
{
    let context = context_in(hub.step(PASS, Call::NewContext))?;
    let register = Call::Register {
        context,
        address: Text::constant("news"),
        limit: 1000,
    };
    is_made(hub.step(PASS, register)).then_some(context)
}

/// Sends a number to the consumer: whether it was sent there.
fn send(hub: &mut Hub<HostVerticle>, alloc: Global, number: i64) -> bool
    requires { 0 < hub.old.passes }
    ensures { 0 < hub.new.passes }
{
    let send = Call::Send {
        address: Text::constant("news"),
        body: Body::int(number),
        options: Options::none(alloc),
    };
    is_made(hub.step(PASS, send))
}

/// The handler: what it makes of a message.
fn handler(reply: Reply) -> Option<i64> {
    match &reply {
        Reply::Task(
            Task::Deliver {
                consumer: _,
                message,
            },
        ) => match message.body.view() {
            BodyView::Int(number) => Some(number),
            _ => None,
        },
        _ => None,
    }
}

/// Takes the next task of the context, runs its handler, and ends the task, so that the next handler may run.
fn run_once(hub: &mut Hub<HostVerticle>, context: ContextId) -> Option<i64>
    requires { 0 < hub.old.passes }
{
    let Taken {
        reply,
        verticle,
        ..
    } = hub.take(PASS, Lane::Own(context));
    let came = handler(reply);
    if hub.gave_verticle(PASS) != verticle.is_some() {
        return None;
    }
    let back = Back {
        verticle,
        end: End::Done,
    };
    hub.finish(PASS, back).ok()?;
    came
}

/// Sends a number, and answers the one that the handler got.
fn exchange(hub: &mut Hub<HostVerticle>, alloc: Global, number: i64) -> Option<i64>
    requires { 0 < hub.old.passes }
{
    let context = set_up(hub)?;
    if send(hub, alloc, number) {
        run_once(hub, context)
    } else {
        None
    }
}

/// Does so on a hub of its own. No other function lets go of a hub, which is dear to prove.
fn exchange_alone(alloc: Global, number: i64) -> Option<i64> {
    let mut hub: Hub<HostVerticle> = Hub::new(alloc);
    exchange(&mut hub, alloc, number)
}

fn main(rt: HostRuntime) -> io::Result<()> {
    match exchange_alone(rt.alloc(), 7) {
        Some(number) => println!(rt; "the handler got {number}"),
        None => println!(rt; "a call was refused, or memory ran out"),
    }
}
