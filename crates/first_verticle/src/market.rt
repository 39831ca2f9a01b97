//! The shop is deployed, and a customer outside of it orders and hears.
ghost use Rattle.std.specs.Prelude.{◌<◌, ◌≡◌, true};
ghost use Rattle.vx_call.specs.Plain.{is_plain};
ghost use Rattle.vx_call.specs.Built.{is_stored};

use crate::fault::{Fault, fault_of};
use crate::serving::{PASS, end_task, serve};
use crate::shop::Shop;
use std::alloc::Global;
use vx_call::{Call, End, Lane, Options, Refusal, Reply, Task};
use vx_data::{Body, ContextId, Text};
use vx_hub::{DeployOptions, Hub, Taken};
use vx_message::Outcome;

/// How long the customer waits, in ms.
const TIMEOUT: u64 = 30_000;

/// The refusal that a reply is, if it is one.
fn refusal_in(reply: &Reply) -> Option<Refusal> {
    match reply {
        Reply::Refused(refusal) => Some(*refusal),
        _ => None,
    }
}

/// Makes a call, and gives the reply that is no refusal.
fn reply_to(hub: &mut Hub<Shop>, call: Call) -> Result<Reply, Fault>
    requires there { 0 < hub.old.passes }
    requires plain { is_plain call ≡ true }
    requires stored { is_stored call ≡ true }
    ensures { 0 < hub.new.passes }
{
    let Ok(reply) = hub.step(PASS, call) else {
        return Err(Fault::NoMemory);
    };
    match refusal_in(&reply) {
        Some(refusal) => Err(Fault::Refused(refusal)),
        None => Ok(reply),
    }
}

/// Deploys a shop with so many pieces, on an event loop.
fn deploy(hub: &mut Hub<Shop>, alloc: Global, pieces: u32) -> Result<(), Fault>
    requires { 0 < hub.old.passes }
    ensures { 0 < hub.new.passes }
{
    let Ok(shops) = vec![in alloc; Shop::new(alloc, pieces)] else {
        return Err(Fault::NoMemory);
    };
    let options = DeployOptions {
        worker: false,
        pool: None,
        tell: None,
    };
    match hub.deploy(PASS, options, shops) {
        Ok(_) => Ok(()),
        Err(refused) => Err(fault_of(refused.why)),
    }
}

/// Makes a context for the customer, deploys the shop, and has it start.
pub fn open(hub: &mut Hub<Shop>, alloc: Global, pieces: u32) -> Result<ContextId, Fault>
    requires { 0 < hub.old.passes }
    ensures { 0 < hub.new.passes }
{
    let reply = reply_to(hub, Call::NewContext)?;
    deploy(hub, alloc, pieces)?;
    serve(hub, alloc)?;
    match &reply {
        Reply::Context(customer) => Ok(*customer),
        _ => Err(Fault::OtherReply),
    }
}

/// The customer sends a request to the shop.
pub fn order(hub: &mut Hub<Shop>, alloc: Global, customer: ContextId) -> Result<(), Fault>
    requires { 0 < hub.old.passes }
    ensures { 0 < hub.new.passes }
{
    let request = Call::Request {
        context: customer,
        address: Text::constant("shop"),
        body: Body::null(),
        options: Options::none(alloc),
        timeout: TIMEOUT,
        once: None,
    };
    reply_to(hub, request)?;
    Ok(())
}

/// The customer takes what came of the request.
pub fn hear(hub: &mut Hub<Shop>, customer: ContextId) -> Result<Outcome, Fault>
    requires { 0 < hub.old.passes }
    ensures { 0 < hub.new.passes }
{
    let Taken {
        reply,
        verticle,
        ..
    } = hub.take(PASS, Lane::Own(customer));
    end_task(hub, verticle, End::Done)?;
    match reply.into_task() {
        Some(Task::Outcome { outcome, .. }) => Ok(outcome),
        _ => Err(Fault::OtherTask),
    }
}
