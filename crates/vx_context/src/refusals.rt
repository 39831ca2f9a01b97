//! Why calls are refused that name a context or a lane, take a task or finish one.

ghost use Rattle.std.specs.Prelude.{◌≡◌, List, Some};
ghost use Rattle.vx_call.specs.declared.history.Traced.{Traced};
ghost use Rattle.vx_call.specs.Held.{held_context};
ghost use Rattle.vx_call.specs.Refusals as machine;
ghost use Rattle.vx_context.specs.Stands.{ContextsStand};

use crate::contexts::Contexts;
use vx_call::{Lane, Refusal};
use vx_data::{ContextId, PassNo};
use vx_message::{Context, Held, Owner};

/// `Holding`, where the pass holds a task.
pub fn already_holding(contexts: &Contexts, pass: PassNo) -> Option<Refusal>
    ensures { (history : List Traced) → ContextsStand contexts.now history → result ≡ machine.already_holding history pass }
{
    match contexts.holding(pass) {
        Some(held) => Some(Refusal::Holding(held.at)),
        None => None,
    }
}

/// `NotHolding`, where the pass holds none.
pub fn not_holding(contexts: &Contexts, pass: PassNo) -> Option<Refusal>
    ensures { (history : List Traced) → ContextsStand contexts.now history → result ≡ machine.not_holding history pass }
{
    match contexts.holding(pass) {
        Some(_) => None,
        None => Some(Refusal::NotHolding),
    }
}

/// `NoContext`, where the context is not there.
pub fn no_context(contexts: &Contexts, context: ContextId) -> Option<Refusal>
    ensures { (history : List Traced) → ContextsStand contexts.now history → result ≡ machine.no_context history context }
{
    match contexts.context(context) {
        Some(_) => None,
        None => Some(Refusal::NoContext),
    }
}

/// `NotYours`, where another pass made the context, or it is a verticle's and the pass holds no handler of it.
pub fn not_your_context(contexts: &Contexts, pass: PassNo, context: ContextId) -> Option<Refusal>
    ensures { (history : List Traced) → ContextsStand contexts.now history → result ≡ machine.not_your_context history pass context }
{
    match contexts.context(context) {
        Some(found) => foreign(contexts, pass, found),
        None => None,
    }
}

// `NotYours`, of a context that is there.
fn foreign(contexts: &Contexts, pass: PassNo, context: Context) -> Option<Refusal>
    ensures { (history : List Traced) → ContextsStand contexts.now history → result ≡ machine.foreign (held_context history pass) pass (Some context) }
{
    match context.maker {
        Some(maker) if maker != pass => Some(Refusal::NotYours(Owner::Pass(maker))),
        Some(_) => None,
        None => match contexts.held_context(pass) {
            Some(held) if context.id == held => None,
            _ => Some(Refusal::NotYours(Owner::Context(context.id))),
        },
    }
}

/// `ContextClosed`, where the context is closed.
pub fn context_closed(contexts: &Contexts, context: ContextId) -> Option<Refusal>
    ensures { (history : List Traced) → ContextsStand contexts.now history → result ≡ machine.context_closed history context }
{
    contexts.closed_at(context).map(Refusal::ContextClosed)
}

// `ContextClosed`, where a context is named that is closed.
fn named_closed(contexts: &Contexts, context: Option<ContextId>) -> Option<Refusal>
    ensures { (history : List Traced) → ContextsStand contexts.now history → result ≡ machine.if_named (machine.context_closed history) context }
{
    match context {
        Some(context) => context_closed(contexts, context),
        None => None,
    }
}

/// `ContextClosed`, where the pass holds a handler's task of a context that is closed.
pub fn holder_closed(contexts: &Contexts, pass: PassNo) -> Option<Refusal>
    ensures { (history : List Traced) → ContextsStand contexts.now history → result ≡ machine.holder_closed history pass }
{
    named_closed(contexts, contexts.held_context(pass))
}

/// `ContextClosed`, where the context is closed, or that of the task which the pass holds.
pub fn closed(contexts: &Contexts, pass: PassNo, context: ContextId) -> Option<Refusal>
    ensures { (history : List Traced) → ContextsStand contexts.now history → result ≡ machine.closed history pass context }
{
    context_closed(contexts, context).or(holder_closed(contexts, pass))
}

/// The same of a context that may be named.
pub fn closed_if_named(
    contexts: &Contexts,
    pass: PassNo,
    context: Option<ContextId>,
) -> Option<Refusal>
    ensures { (history : List Traced) → ContextsStand contexts.now history → result ≡ machine.closed_if_named history pass context }
{
    named_closed(contexts, context).or(holder_closed(contexts, pass))
}

/// `NoLane`, where the lane is not there: an event loop is there below number 16.
pub fn no_lane(contexts: &Contexts, lane: Lane) -> Option<Refusal>
    ensures { (history : List Traced) → ContextsStand contexts.now history → result ≡ machine.no_lane history lane }
{
    let there = match lane {
        Lane::Loop(number) => number < 16,
        Lane::Pool => true,
        Lane::Named(pool) => contexts.pool_size(pool).is_some(),
        Lane::Own(context) => match contexts.context(context) {
            Some(found) => found.maker.is_some(),
            None => false,
        },
    };
    if there { None } else { Some(Refusal::NoLane) }
}

/// `NotYours`, where the lane is that of another pass's context.
pub fn not_your_lane(contexts: &Contexts, pass: PassNo, lane: Lane) -> Option<Refusal>
    ensures { (history : List Traced) → ContextsStand contexts.now history → result ≡ machine.not_your_lane history pass lane }
{
    match lane {
        Lane::Own(context) => not_your_context(contexts, pass, context),
        _ => None,
    }
}

/// `LaneHeld`, where a pass holds a task of the event loop.
pub fn lane_held(contexts: &Contexts, lane: Lane) -> Option<Refusal>
    ensures { (history : List Traced) → ContextsStand contexts.now history → result ≡ machine.lane_held history lane }
{
    match lane {
        Lane::Loop(_) => held_by(contexts.held_on(lane)),
        _ => None,
    }
}

// `LaneHeld`, where a task is held.
fn held_by(held: Option<Held>) -> Option<Refusal>
    ensures { result ≡ machine.lane_held_by held }
{
    match held {
        Some(held) => Some(Refusal::LaneHeld(held.pass)),
        None => None,
    }
}
