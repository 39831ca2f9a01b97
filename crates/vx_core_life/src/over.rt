//! The start or the stop that a handler's task is, and how it ends.
ghost use Rattle.std.specs.Prelude.{◌≡◌, List, Some};
ghost use Rattle.std.specs.Option.{option_map};
ghost use Rattle.vx_call.specs.declared.call.Call.TheVariants as calls;
ghost use Rattle.vx_call.specs.declared.history.Traced.{Traced};
ghost use Rattle.vx_call.specs.Starts as machine;
ghost use Rattle.vx_call.specs.Starts.{ending, starts_in, stops_in};
ghost use Rattle.vx_call.specs.Closings.{context_in};
ghost use Rattle.vx_context.specs.Stands.{ContextsStand};
ghost use Rattle.vx_core_life.specs.Ending.{IsOver, start_in, stop_in};

use vx_call::End;
use vx_context::Contexts;
use vx_data::{ContextId, PassNo};
use vx_message::{DoneResult, ItemKind};

/// What a call ends, if it did not end before: the start of a context, and how it ended, or the stop of one.
#[derive(Clone, Copy)]
pub enum Over {
    Nothing,
    Start(ContextId, DoneResult),
    Stop(ContextId),
}

/// The start of the verticle whose handler makes the call, with how it ended.
pub fn start_of(contexts: &Contexts, pass: PassNo, done: DoneResult) -> Over
    ensures { (history : List Traced) → ContextsStand contexts.now history → IsOver history pass (calls.StartDone done) result }
{
    match contexts.held_context(pass) {
        Some(context) => Over::Start(context, done),
        None => Over::Nothing,
    }
}

/// The stop of the verticle whose handler makes the call.
pub fn stop_of(contexts: &Contexts, pass: PassNo) -> Over
    ensures { (history : List Traced) → ContextsStand contexts.now history → IsOver history pass calls.StopDone result }
{
    match contexts.held_context(pass) {
        Some(context) => Over::Stop(context),
        None => Over::Nothing,
    }
}

/// The start or the stop that a pass holds, where its task ends so. It is nothing where it ends later.
pub fn held_over(contexts: &Contexts, pass: PassNo, end: End) -> Over
    ensures { (history : List Traced) → ContextsStand contexts.now history → IsOver history pass (calls.Finish end) result }
{
    match contexts.holding(pass) {
        Some(held) => over_as(held.kind, done_by(end)),
        None => Over::Nothing,
    }
}

// How a start ends as its task does: it doesn't where it ends later.
fn done_by(end: End) -> Option<DoneResult>
    ensures { result ≡ machine.done_by end }
{
    match end {
        End::Done | End::Value(_) => Some(DoneResult::Ok),
        End::Later => None,
        End::Fail(code) => Some(DoneResult::Fail(code)),
        End::NoMemory => Some(DoneResult::NoMemory),
    }
}

// What a task of this kind is that ended so, if it ended.
fn over_as(kind: ItemKind, done: Option<DoneResult>) -> Over
    ensures start { start_in result ≡ ending (starts_in kind) done }
    ensures stop { stop_in result ≡ option_map context_in (ending (stops_in kind) done) }
{
    match done {
        Some(done) => ended_as(kind, done),
        None => Over::Nothing,
    }
}

fn ended_as(kind: ItemKind, done: DoneResult) -> Over
    ensures start { start_in result ≡ ending (starts_in kind) (Some done) }
    ensures stop { stop_in result ≡ stops_in kind }
{
    match kind {
        ItemKind::Start(context) => Over::Start(context, done),
        ItemKind::Stop(context) => Over::Stop(context),
        _ => Over::Nothing,
    }
}
