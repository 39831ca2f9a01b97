//! A task of the shop, from its Take to its Finish.
ghost use Rattle.std.specs.Prelude.{◌<◌};

use crate::fault::Fault;
use crate::shop::Shop;
use std::alloc::Global;
use vx_call::{End, Lane};
use vx_data::{ContextId, PassNo};
use vx_hub::{Back, Hub, Taken};
use vx_verticle::{Act, ActResult, Acts, Event, NoOnce, Verticle};

/// The one caller.
pub const PASS: PassNo = PassNo(0);

/// Takes the next task of the first event loop, has the shop handle it, makes its acts, and ends the task.
pub fn serve(hub: &mut Hub<Shop>, alloc: Global) -> Result<(), Fault>
    requires { 0 < hub.old.passes }
    ensures { 0 < hub.new.passes }
{
    let Taken {
        reply,
        context,
        verticle,
    } = hub.take(PASS, Lane::Loop(0));
    let (Some(task), Some(context), Some(mut shop)) = (reply.into_task(), context, verticle) else {
        return Err(Fault::OtherTask);
    };
    let mut acts = Acts::new(alloc);
    let end = shop.handle(&Event { context, task }, &mut acts);
    make_all(hub, &mut shop, context, acts)?;
    end_task(hub, Some(shop), end)
}

/// Makes the acts of a handler, in order, and tells the shop what became of each.
fn make_all(
    hub: &mut Hub<Shop>,
    shop: &mut Shop,
    context: ContextId,
    acts: Acts<NoOnce>,
) -> Result<(), Fault>
    requires { 0 < hub.old.passes }
    ensures { 0 < hub.new.passes }
{
    let mut act_no = 0;
    for act in acts.into_items() {
        let answer = make(hub, context, act)?;
        shop.outcome(act_no, &answer);
        act_no += 1;
    }
    Ok(())
}

/// Makes the call that an act comes to.
fn make(hub: &mut Hub<Shop>, context: ContextId, act: Act<NoOnce>) -> Result<ActResult, Fault>
    requires { 0 < hub.old.passes }
    ensures { 0 < hub.new.passes }
{
    let Act::Plain(act) = act else {
        return Err(Fault::Unbuilt);
    };
    let call = act.into_call(context);
    if !call.is_built() {
        return Err(Fault::Unbuilt);
    }
    match hub.step(PASS, call) {
        Ok(reply) => Ok(ActResult::Made(reply)),
        Err(_) => Ok(ActResult::NoMemory),
    }
}

/// Ends the task that is held, and gives the verticle back that came with it.
pub fn end_task(hub: &mut Hub<Shop>, verticle: Option<Shop>, end: End) -> Result<(), Fault>
    requires { 0 < hub.old.passes }
    ensures { 0 < hub.new.passes }
{
    if hub.gave_verticle(PASS) != verticle.is_some() {
        return Err(Fault::OtherTask);
    }
    match hub.finish(PASS, Back { verticle, end }) {
        Ok(()) => Ok(()),
        Err(refused) => Err(Fault::Refused(refused.why)),
    }
}
