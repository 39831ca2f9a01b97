//! Why the calls are refused by which verticles are deployed, start, stop and end.

ghost use Rattle.std.specs.Prelude.{◌≡◌, List, None};
ghost use Rattle.std.specs.Option.{option_or};
ghost use Rattle.vx_call.specs.declared.history.Traced.{Traced};
ghost use Rattle.vx_call.specs.Contexts.{context_at, is_verticle};
ghost use Rattle.vx_call.specs.Deployments as deployments;
ghost use Rattle.vx_call.specs.Refusals as machine;
ghost use Rattle.vx_call.specs.Rows as rows;
ghost use Rattle.vx_context.specs.Stands.{ContextsStand};
ghost use Rattle.vx_life.specs.Stands.{LifeStands};

use crate::pools::{many_pools, no_pool, pool_taken};
use vx_bus_refusals::bad_address;
use vx_call::Refusal;
use vx_context::{Contexts, closed_if_named, holder_closed, no_context, not_your_context};
use vx_data::{ContextId, DeploymentId, PassNo, Text};
use vx_life::Life;
use vx_life_rows::{
    bad_loops, holder_stopping, no_deployment, start_not_pending, stop_not_pending, stopping,
};

/// The most workers of a pool.
const MAX_WORKERS: u64 = 20;

/// The most verticles of a deployment.
const MAX_VERTICLES: u64 = 64;

// `NoContext`, where a context is named that is not there.
fn no_named_context(contexts: &Contexts, tell: Option<ContextId>) -> Option<Refusal>
    ensures { (history : List Traced) → ContextsStand contexts.now history → result ≡ machine.if_named (machine.no_context history) tell }
{
    match tell {
        Some(context) => no_context(contexts, context),
        None => None,
    }
}

// `NotYours`, where a context is named that is another's.
fn not_your_named(contexts: &Contexts, pass: PassNo, tell: Option<ContextId>) -> Option<Refusal>
    ensures { (history : List Traced) → ContextsStand contexts.now history → result ≡ machine.if_named (machine.not_your_context history pass) tell }
{
    match tell {
        Some(context) => not_your_context(contexts, pass, context),
        None => None,
    }
}

// `BadCount`, where it is not 1 to so many.
fn bad_count(most: u64, count: u64) -> Option<Refusal>
    ensures { result ≡ machine.bad_count most count }
{
    if count == 0 || most < count {
        Some(Refusal::BadCount)
    } else {
        None
    }
}

/// Why a SetLoops is refused.
pub fn set_loops_refusal(contexts: &Contexts, pass: PassNo, count: u32) -> Option<Refusal>
    ensures refusal { (history : List Traced) → ContextsStand contexts.now history → result ≡ option_or (machine.holder_closed history pass) (machine.bad_count 16 count) }
    ensures free { result ≡ None → machine.bad_count 16 count ≡ None }
{
    holder_closed(contexts, pass).or(bad_loops(count))
}

/// Why an AddPool is refused.
pub fn add_pool_refusal(
    contexts: &Contexts,
    pass: PassNo,
    name: &Text,
    size: u32,
) -> Option<Refusal>
    ensures { (history : List Traced) → ContextsStand contexts.now history → result ≡ rows.add_pool_refusal history pass name.now size }
{
    holder_closed(contexts, pass)
        .or(bad_address(name))
        .or(bad_count(MAX_WORKERS, u64::from(size)))
        .or(pool_taken(contexts, name))
        .or(many_pools(contexts))
}

/// Why a Deploy is refused.
pub fn deploy_refusal(
    life: &Life,
    contexts: &Contexts,
    pass: PassNo,
    pool: &Option<Text>,
    tell: Option<ContextId>,
    count: u64,
) -> Option<Refusal>
    ensures refusal { (history : List Traced) → ContextsStand contexts.now history → LifeStands life.now history → result ≡ rows.deploy_refusal history pass pool.now tell count }
    ensures free { result ≡ None → machine.bad_count 64 count ≡ None }
{
    no_named_context(contexts, tell)
        .or(no_pool(contexts, pool))
        .or(not_your_named(contexts, pass, tell))
        .or(closed_if_named(contexts, pass, tell))
        .or(bad_count(MAX_VERTICLES, count))
        .or(holder_stopping(life, held_deployment(contexts, pass)))
}

/// Why an Undeploy is refused.
pub fn undeploy_refusal(
    life: &Life,
    contexts: &Contexts,
    pass: PassNo,
    deployment: DeploymentId,
    tell: Option<ContextId>,
) -> Option<Refusal>
    ensures { (history : List Traced) → ContextsStand contexts.now history → LifeStands life.now history → result ≡ rows.undeploy_refusal history pass deployment tell }
{
    no_deployment(life, deployment)
        .or(no_named_context(contexts, tell))
        .or(not_your_named(contexts, pass, tell))
        .or(closed_if_named(contexts, pass, tell))
        .or(stopping(life, deployment))
}

/// The deployment of the verticle whose handler the pass holds.
pub fn held_deployment(contexts: &Contexts, pass: PassNo) -> Option<DeploymentId>
    ensures { (history : List Traced) → ContextsStand contexts.now history → result ≡ deployments.held_deployment history pass }
{
    match contexts.held_context(pass) {
        Some(context) if is_verticle(contexts, context) => Some(DeploymentId(context.entry)),
        _ => None,
    }
}

// Whether a context is one of a verticle.
fn is_verticle(contexts: &Contexts, id: ContextId) -> bool
    ensures { (history : List Traced) → ContextsStand contexts.now history → result ≡ is_verticle (context_at history id) }
{
    match contexts.context(id) {
        Some(context) => context.maker.is_none(),
        None => false,
    }
}

// `NotHolding`, where the pass holds no handler's task.
fn no_handler(contexts: &Contexts, pass: PassNo) -> Option<Refusal>
    ensures { (history : List Traced) → ContextsStand contexts.now history → result ≡ machine.no_handler history pass }
{
    match contexts.held_context(pass) {
        Some(_) => None,
        None => Some(Refusal::NotHolding),
    }
}

// `NoDeployment`, where the task that the pass holds is of no verticle.
fn no_verticle(contexts: &Contexts, pass: PassNo) -> Option<Refusal>
    ensures { (history : List Traced) → ContextsStand contexts.now history → result ≡ machine.no_verticle history pass }
{
    match held_deployment(contexts, pass) {
        Some(_) => None,
        None => Some(Refusal::NoDeployment),
    }
}

/// Why a StartDone is refused.
pub fn start_done_refusal(life: &Life, contexts: &Contexts, pass: PassNo) -> Option<Refusal>
    ensures { (history : List Traced) → ContextsStand contexts.now history → LifeStands life.now history → result ≡ rows.end_refusal history pass (machine.start_not_pending history pass) }
{
    no_handler(contexts, pass)
        .or(no_verticle(contexts, pass))
        .or(holder_closed(contexts, pass))
        .or(start_not_pending(life, contexts.held_context(pass)))
}

/// Why a StopDone is refused.
pub fn stop_done_refusal(life: &Life, contexts: &Contexts, pass: PassNo) -> Option<Refusal>
    ensures { (history : List Traced) → ContextsStand contexts.now history → LifeStands life.now history → result ≡ rows.end_refusal history pass (machine.stop_not_pending history pass) }
{
    no_handler(contexts, pass)
        .or(no_verticle(contexts, pass))
        .or(holder_closed(contexts, pass))
        .or(stop_not_pending(life, contexts.held_context(pass)))
}
