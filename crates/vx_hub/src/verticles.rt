//! Verticles that come with a deployment, are handed out with a task, come back at its end, and go as their context closes.
ghost use Rattle.std.specs.Prelude.{◌≡◌, ◌≤◌, ◌++◌, ◌∷◌, [], true, if◌then◌else◌, length, map, None, IfOk, IfErr};
ghost use Rattle.std.specs.Option.{option_map};
ghost use Rattle.vx_call.specs.Contexts.{is_context_of};
ghost use Rattle.vx_instances.specs.Kept.{put_if, state_if, kept_from};
ghost use Rattle.vx_instances.proofs.Rows.{closes_all};
ghost use Rattle.vx_hub.specs.Handing.{held_context_in, gave_in, handed_in, is_verticle_in, kept_back, left_open, ending_in, settles};
ghost use Rattle.vx_hub.specs.declared.verticles.Why.TheVariants as whys;

use vx_call::{Call, End, Refusal, Reply};
use vx_context::Contexts;
use vx_data::{ContextId, DeploymentId, EntryNo, PassNo, Text};
use vx_instances::Instances;
use vx_verticle::Verticle;

/// How verticles are deployed. (`DeploymentOptions`.)
pub struct DeployOptions {
    /// On workers, and not on an event loop.
    pub worker: bool,
    /// The worker pool of this name, in place of the one without a name.
    pub pool: Option<Text>,
    /// The context that is told as all have started, or as the deployment is gone since one failed to start.
    pub tell: Option<ContextId>,
}

impl Drop for DeployOptions {
    fn drop(self) {
        let DeployOptions {
            worker: _,
            pool: _,
            tell: _,
        } = self;
    }
}

/// Verticles that were not deployed, and why.
#[derive(Drop)]
pub struct DeployRefused<V> {
    pub verticles: Vec<V>,
    pub why: Why,
}

/// Why verticles were not deployed.
#[derive(Clone, Copy, PartialEq, Eq)]
pub enum Why {
    /// The machine refuses it: the refusal is an entry of the history, but where the history is spent.
    Refused(Refusal),
    /// Memory ran out. The history is as it was.
    NoMemory,
}

/// What a Take answers, the context whose handler the task is, where it is a handler's, and the verticle that it hands out:
/// that of the context, where the context is a verticle's. It is given back by the Finish.
#[derive(Drop)]
pub struct Taken<V> {
    pub reply: Reply,
    pub context: Option<ContextId>,
    pub verticle: Option<V>,
}

/// What comes back at the end of a task: the verticle that was handed out with it, if one was, and how the task ended.
#[derive(Drop)]
pub struct Back<V> {
    pub verticle: Option<V>,
    pub end: End,
}

/// A Finish that was refused, with what was to come back.
#[derive(Drop)]
pub struct FinishRefused<V> {
    pub back: Back<V>,
    pub why: Refusal,
}

// Verticles that come back, and why.
pub(crate) fn not_deployed<V>(verticles: Vec<V>, why: Why) -> DeployRefused<V>
    ensures { result ≡ record { verticles = verticles; why = why } }
{
    DeployRefused { verticles, why }
}

// Keeps the verticles that a reply says are deployed, for which there is room, or gives them back.
pub(crate) fn settle_in<V: Verticle>(
    instances: &mut Instances<V>,
    at: EntryNo,
    reply: &Reply,
    verticles: Vec<V>,
) -> Result<DeploymentId, DeployRefused<V>>
    requires room { length verticles.items ≤ instances.old.room }
    requires few { settles reply.now (length verticles.items) ≡ true }
    ensures done { IfOk result (λ id. (reply.now ≡ Reply.Deployment id) × (instances.new.kept ≡ instances.old.kept ++ kept_from at 0 (map V.state verticles.items))) }
    ensures refused { IfErr result (λ refused. (why : Refusal) → refused.why ≡ whys.Refused why → (reply.now ≡ Reply.Refused why) × (instances.new.kept ≡ instances.old.kept)) }
    ensures sure { IfErr result (λ refused. (refused.why ≡ whys.NoMemory → ⊥)) }
    ensures comes_back { IfErr result (λ refused. refused.verticles ≡ verticles) }
{
    match reply {
        Reply::Deployment(id) => {
            instances.add(at, verticles);
            Ok(*id)
        }
        Reply::Refused(why) => Err(not_deployed(verticles, Why::Refused(*why))),
        _ => unreachable!(),
    }
}

// The context whose handler a reply hands out to a pass, which holds it now.
pub(crate) fn handed(contexts: &Contexts, pass: PassNo, reply: &Reply) -> Option<ContextId>
    ensures { result ≡ handed_in reply.now (held_context_in contexts.now.held pass) }
{
    match reply {
        Reply::Task(_) => contexts.held_context(pass),
        _ => None,
    }
}

// Takes the verticle of a context out, if one is named.
pub(crate) fn hand_over<V: Verticle>(
    instances: &mut Instances<V>,
    context: Option<ContextId>,
) -> Option<V>
    ensures given { option_map V.state result ≡ state_if context instances.old.kept }
    ensures out { instances.new.kept ≡ put_if context None instances.old.kept }
{
    match context {
        Some(context) => instances.take_out(context),
        None => None,
    }
}

// Whether the context is one of a verticle.
fn is_verticle(contexts: &Contexts, context: Option<ContextId>) -> bool
    ensures { result ≡ is_verticle_in contexts.now.made context }
{
    match context {
        Some(id) => match contexts.context(id) {
            Some(context) => context.maker.is_none(),
            None => false,
        },
        None => false,
    }
}

// Whether the task that a pass holds handed a verticle out.
pub(crate) fn gave(contexts: &Contexts, pass: PassNo) -> bool
    ensures { result ≡ gave_in contexts.now pass }
{
    is_verticle(contexts, contexts.held_context(pass))
}

// Keeps a verticle that came back, if one did and its context is still open.
pub(crate) fn keep_again<V: Verticle>(
    instances: &mut Instances<V>,
    context: Option<ContextId>,
    verticle: Option<V>,
)
    ensures { instances.new.kept ≡ kept_back context (option_map V.state verticle) instances.old.kept }
{
    match context {
        Some(context) => match verticle {
            Some(verticle) => instances.put_in(context, verticle),
            None => {}
        },
        None => {}
    }
}

// The context whose handler a pass runs, where the call may end its start or its stop.
pub(crate) fn ends_life(contexts: &Contexts, pass: PassNo, call: &Call) -> Option<ContextId>
    ensures { result ≡ ending_in call.now (held_context_in contexts.now.held pass) }
{
    match call {
        Call::StartDone(_) | Call::StopDone => contexts.held_context(pass),
        _ => None,
    }
}

// Whether the call closes the hub.
pub(crate) fn closes_hub(call: &Call) -> bool
    ensures { result ≡ closes_all call.now }
{
    matches!(call, Call::Close)
}

// Lets go of the verticles of contexts that are closed: of this one, if it is, and of all where the hub is closed.
pub(crate) fn leave_out_closed<V: Verticle>(
    instances: &mut Instances<V>,
    contexts: &Contexts,
    context: Option<ContextId>,
    all: bool,
)
    ensures { instances.new.kept ≡ (if all then [] else left_open contexts.now context instances.old.kept) }
{
    if all {
        instances.clear();
        return;
    }
    if let Some(id) = context {
        if !contexts.is_open(id) {
            instances.remove(id);
        }
    }
}
