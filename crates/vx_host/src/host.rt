//! The calls of passes.
ghost use Rattle.std.specs.Option.{option_map, option_to_list};
ghost use Rattle.std.specs.Prelude.{◌≡◌, ◌<◌, true, is_some, [], length, map, Contains, IsTrue, IfOk, IfErr, OnErr, IsOk};
ghost use Rattle.vx_call.specs.declared.call.Call.TheVariants as calls;
ghost use Rattle.vx_call.specs.declared.reply.Refusal.{Refusal};
ghost use Rattle.vx_call.specs.declared.reply.Refusal.TheVariants as refusals;
ghost use Rattle.vx_call.specs.declared.reply.Reply.TheVariants as replies;
ghost use Rattle.vx_call.specs.Built.{is_stored};
ghost use Rattle.vx_call.specs.Plain.{is_plain, takes_no_memory};
ghost use Rattle.vx_call.specs.Requests.{unsettled};
ghost use Rattle.vx_call.specs.Machine.{IsLegal};
ghost use Rattle.vx_turn.specs.Caller.{newcomer, Watched, Joined, KeepsEntries, SameEntries, IsBusy};
ghost use Rattle.vx_turn.specs.Passes.{place, place_of, caller, number, numbers, seen};
ghost use Rattle.vx_hub.specs.declared.verticles.Why.TheVariants as whys;
ghost use Rattle.vx_hub.specs.Handing.{gave_in};
ghost use Rattle.vx_hub.specs.Looks.{look_at, least_due, totals_of};
ghost use Rattle.vx_hub.specs.Passes.{pass_of};
ghost use Rattle.vx_instances.specs.Instances.{gave};
ghost use Rattle.vx_host.specs.Calls.{Called, Took, IfTask, AddedNothing};
ghost use Rattle.vx_host.specs.Hub.{Steps, Deploys, Takes, Finishes, Finds};
ghost use Rattle.vx_host.specs.Turns.{pass_no};

use crate::turns::{attempt_at_once, attempt_in_turn, in_turn, split};
use std::alloc::Global;
use std::marker::Brand;
use std::sync::Wait;
use vx_call::{Call, Lane, Reply, Unmade};
use vx_data::{DeploymentId, NoMemory};
use vx_hub::{Back, DeployOptions, DeployRefused, FinishRefused, Hub, Look, Taken, Totals, Why};
use vx_turn::{Machine, Shared, Spent};
use vx_verticle::Verticle;

/// A caller of a host. It is given to each call and comes back from it, so its calls come one after another.
pub type Pass<V> = vx_turn::Pass<Hub<V>>;

/// A hub that any number of passes call in turn, each on whatever thread. All their calls stand in one history.
#[derive(Drop)]
pub struct Host<V: Verticle> {
    pub shared: Shared<Hub<V>>,
}

/// The pass of a plain call, and the reply. Where memory ran out the call comes back.
#[derive(Drop)]
pub struct Applied<V: Verticle>
where
    Hub<V>: Machine,
{
    pub pass: Pass<V>,
    pub result: Result<Reply, Unmade>,
}

/// The call was not made, since another pass has the turn or waits for it: the pass looked once, read `serving` as the ticket that is served, and then found the next ticket to be `ticket`.
/// Or it read 2^64 - 1, so that no ticket is left, and `ticket` is the same.
#[derive(Drop)]
pub struct BusyCall<V: Verticle>
where
    Hub<V>: Machine,
{
    pub pass: Pass<V>,
    pub call: Call,
    pub serving: u64,
    pub ticket: u64,
}

impl<V: Verticle> Host<V> {
    /// A host whose history is empty, and its first pass, which has number 0.
    pub fn open(alloc: Global) -> Result<(Host<V>, Pass<V>), NoMemory>
        ensures { IfOk result (λ opened. (place_of opened.1 ≡ place opened.0.shared) × (caller opened.1 ≡ newcomer 0 [])) }
    {
        match Shared::open(alloc, Hub::new(alloc)) {
            Ok((shared, pass)) => Ok((Host { shared }, pass)),
            Err((_, NoMemory)) => Err(NoMemory),
        }
    }

    /// Waits for its turn and makes a plain call: no Deploy, Take or Finish. The call is one that has a body: of the event
    /// bus or of verticles.
    pub fn apply<R: Wait>(&self, rt: &R, pass: Pass<V>, call: Call) -> Applied<V>
        requires place { place_of pass ≡ place self.now.shared }
        requires plain { IsTrue (is_plain call) }
        requires stored { is_stored call ≡ true }
        ensures place { place_of result.pass ≡ place_of pass }
        ensures called { IfOk result.result (λ reply. Called (caller pass) call reply [] (caller result.pass)) }
        ensures without_memory { OnErr result.result (AddedNothing (caller pass) (caller result.pass)) }
        ensures call_comes_back { IfErr result.result (λ unmade. unmade.call ≡ call) }
        ensures takes_no_memory { takes_no_memory call ≡ true → IsOk result.result }
    {
        let (pass, result) = attempt_in_turn::<_, Brand, _, _, _, _, _>(
            &self.shared,
            rt,
            pass,
            call,
            |hub, pass, call|
                requires known { pass.0 < hub.old.passes }
                requires plain { IsTrue (is_plain call) }
                requires stored { is_stored call ≡ true }
                ensures { Steps hub.old hub.new pass call result }
            { hub.step(pass, call) },
        );
        Applied { pass, result }
    }

    /// Makes a plain call that has a body if no other pass has the turn or waits for it. It doesn't wait.
    pub fn try_apply(&self, pass: Pass<V>, call: Call) -> Result<Applied<V>, BusyCall<V>>
        requires place { place_of pass ≡ place self.now.shared }
        requires plain { IsTrue (is_plain call) }
        requires stored { is_stored call ≡ true }
        ensures place { IfOk result (λ applied. place_of applied.pass ≡ place_of pass) }
        ensures called { IfOk result (λ applied. IfOk applied.result (λ reply. Called (caller pass) call reply [] (caller applied.pass))) }
        ensures without_memory { IfOk result (λ applied. OnErr applied.result (AddedNothing (caller pass) (caller applied.pass))) }
        ensures call_comes_back { IfOk result (λ applied. IfErr applied.result (λ unmade. unmade.call ≡ call)) }
        ensures takes_no_memory { takes_no_memory call ≡ true → IfOk result (λ applied. IsOk applied.result) }
        ensures back { IfErr result (λ busy. (place_of busy.pass ≡ place_of pass) × (busy.call ≡ call)) }
        ensures busy { IfErr result (λ busy. IsBusy (caller pass) (caller busy.pass) busy.serving busy.ticket) }
    {
        let made = attempt_at_once::<_, Brand, _, _, _, _>(
            &self.shared,
            pass,
            call,
            |hub, pass, call|
                requires known { pass.0 < hub.old.passes }
                requires plain { IsTrue (is_plain call) }
                requires stored { is_stored call ≡ true }
                ensures { Steps hub.old hub.new pass call result }
            { hub.step(pass, call) },
        );
        match made {
            Ok((pass, result)) => Ok(Applied { pass, result }),
            Err((busy, call)) => Err(BusyCall {
                pass: busy.pass,
                call,
                serving: busy.serving,
                ticket: busy.ticket,
            }),
        }
    }

    /// Waits for its turn and deploys verticles, one context each, below the verticle whose handler makes the call. Where it
    /// is refused, or memory runs out, the verticles come back.
    pub fn deploy<R: Wait>(
        &self,
        rt: &R,
        pass: Pass<V>,
        options: DeployOptions,
        verticles: Vec<V>,
    ) -> (Pass<V>, Result<DeploymentId, DeployRefused<V>>)
        requires place { place_of pass ≡ place self.now.shared }
        ensures place { place_of result.0 ≡ place_of pass }
        ensures called { IfOk result.1 (λ id. Called (caller pass) (calls.Deploy options.worker options.pool options.tell (length verticles.items)) (replies.Deployment id) (map V.state verticles.items) (caller result.0)) }
        ensures refused { IfErr result.1 (λ refused. (why : Refusal) → refused.why ≡ whys.Refused why → Called (caller pass) (calls.Deploy options.worker options.pool options.tell (length verticles.items)) (replies.Refused why) (map V.state verticles.items) (caller result.0)) }
        ensures without_memory { IfErr result.1 (λ refused. refused.why ≡ whys.NoMemory → AddedNothing (caller pass) (caller result.0)) }
        ensures comes_back { IfErr result.1 (λ refused. refused.verticles ≡ verticles) }
    {
        let (pass, result) = attempt_in_turn::<_, Brand, _, _, _, _, _>(
            &self.shared,
            rt,
            pass,
            (options, verticles),
            |hub, pass, (options, verticles)|
                requires { pass.0 < hub.old.passes }
                ensures answered { Deploys hub.old hub.new pass (calls.Deploy options.worker options.pool options.tell (length verticles.items)) (map V.state verticles.items) result }
                ensures comes_back { IfOk result (λ answer. IfErr answer (λ refused. refused.verticles ≡ verticles)) }
                ensures not_deployed { IfErr result (λ refused. refused.verticles ≡ verticles) }
            { if_memory(hub.deploy(pass, options, verticles)) },
        );
        match result {
            Ok(answer) => (pass, answer),
            Err(refused) => (pass, Err(refused)),
        }
    }

    /// Waits for its turn and takes the next task of a lane: the task, `Idle`, `Stopped` or a refusal. With a handler's task
    /// of a verticle it hands out the verticle.
    pub fn take<R: Wait>(&self, rt: &R, pass: Pass<V>, lane: Lane) -> (Pass<V>, Taken<V>)
        requires { place_of pass ≡ place self.now.shared }
        ensures place { place_of result.0 ≡ place_of pass }
        ensures took { Took (caller pass) lane result.1.reply result.1.context (option_map V.state result.1.verticle) (caller result.0) }
        ensures holds { IfTask result.1.reply (is_some result.1.verticle ≡ gave (seen result.0) (pass_no (caller result.0))) }
    {
        in_turn::<_, Brand, _, _, _, _>(
            &self.shared,
            rt,
            pass,
            lane,
            |hub, pass, lane|
                requires { pass.0 < hub.old.passes }
                ensures { Takes hub.old hub.new pass lane result.reply result.context (option_map V.state result.verticle) }
            { hub.take(pass, lane) },
        )
    }

    /// Waits for its turn and ends the task that the pass holds: `Ok` where the machine answers Done, else its refusal. The
    /// verticle that was handed out with the task comes back: one exactly where one was.
    pub fn finish<R: Wait>(
        &self,
        rt: &R,
        pass: Pass<V>,
        back: Back<V>,
    ) -> (Pass<V>, Result<(), FinishRefused<V>>)
        requires place { place_of pass ≡ place self.now.shared }
        requires there { is_some back.verticle ≡ gave (seen pass) (pass_no (caller pass)) }
        ensures place { place_of result.0 ≡ place_of pass }
        ensures called { IfOk result.1 (λ _. Called (caller pass) (calls.Finish back.end) replies.Done (option_to_list (option_map V.state back.verticle)) (caller result.0)) }
        ensures refused { IfErr result.1 (λ refused. Called (caller pass) (calls.Finish back.end) (replies.Refused refused.why) (option_to_list (option_map V.state back.verticle)) (caller result.0)) }
        ensures comes_back { IfErr result.1 (λ refused. refused.back ≡ back) }
    {
        in_turn::<_, Brand, _, _, _, _>(
            &self.shared,
            rt,
            pass,
            back,
            |hub, pass, back|
                requires known { pass.0 < hub.old.passes }
                requires there { is_some back.verticle ≡ gave_in hub.old.contexts pass }
                ensures answered { Finishes hub.old hub.new pass back.end (option_to_list (option_map V.state back.verticle)) result }
                ensures comes_back { IfErr result (λ refused. refused.back ≡ back) }
            { hub.finish(pass, back) },
        )
    }

    /// Waits for its turn and makes a pass, which has a number of its own, and has seen just what the splitting pass then has.
    /// `Spent` comes exactly where the history has 2^48 entries.
    pub fn split<R: Wait>(&self, rt: &R, pass: Pass<V>) -> (Pass<V>, Result<Pass<V>, Spent>)
        requires { place_of pass ≡ place self.now.shared }
        ensures place { place_of result.0 ≡ place_of pass }
        ensures called { IfOk result.1 (λ new. Called (caller pass) calls.NewPass (replies.Pass (record { 0 = number new })) [] (caller result.0)) }
        ensures new { IfOk result.1 (λ new. (place_of new ≡ place_of pass) × (caller new ≡ newcomer (number new) (seen result.0)) × (¬ (Contains (numbers result.0) (number new)))) }
        ensures spent { OnErr result.1 (Called (caller pass) calls.NewPass (replies.Refused refusals.Spent) [] (caller result.0)) }
    {
        split(&self.shared, rt, pass)
    }

    /// Waits for its turn and looks whether a lane has a next task. A look is no entry of the history.
    pub fn look<R: Wait>(&self, rt: &R, pass: Pass<V>, lane: Lane) -> (Pass<V>, Look)
        requires { place_of pass ≡ place self.now.shared }
        ensures place { place_of result.0 ≡ place_of pass }
        ensures adds_nothing { AddedNothing (caller pass) (caller result.0) }
        ensures found { result.1 ≡ look_at (seen result.0) lane }
    {
        in_turn::<_, Brand, _, _, _, _>(
            &self.shared,
            rt,
            pass,
            lane,
            |hub, _, lane|
                ensures { Finds hub.old hub.new (λ history. look_at history lane) result }
            { hub.look(lane) },
        )
    }

    /// Waits for its turn and looks when the first open request is due, in ms: none where no request is open. A look is no entry of the history.
    pub fn look_due<R: Wait>(&self, rt: &R, pass: Pass<V>) -> (Pass<V>, Option<u64>)
        requires { place_of pass ≡ place self.now.shared }
        ensures place { place_of result.0 ≡ place_of pass }
        ensures adds_nothing { AddedNothing (caller pass) (caller result.0) }
        ensures found { result.1 ≡ least_due (unsettled (seen result.0)) }
    {
        in_turn::<_, Brand, _, _, _, _>(
            &self.shared,
            rt,
            pass,
            (),
            |hub, _, ()|
                ensures { Finds hub.old hub.new (λ history. least_due (unsettled history)) result }
            { hub.look_due() },
        )
    }

    /// Waits for its turn and counts what was done in the history. To count is no entry of the history.
    pub fn totals<R: Wait>(&self, rt: &R, pass: Pass<V>) -> (Pass<V>, Totals)
        requires { place_of pass ≡ place self.now.shared }
        ensures place { place_of result.0 ≡ place_of pass }
        ensures adds_nothing { AddedNothing (caller pass) (caller result.0) }
        ensures found { result.1 ≡ totals_of (seen result.0) }
    {
        in_turn::<_, Brand, _, _, _, _>(
            &self.shared,
            rt,
            pass,
            (),
            |hub, _, ()|
                ensures { Finds hub.old hub.new totals_of result }
            { hub.totals() },
        )
    }

    /// Makes one pass of two: it has the number of `pass`, the entries of both, and has seen what either had seen.
    pub fn join(&self, pass: Pass<V>, other: Pass<V>) -> Pass<V>
        requires pass { place_of pass ≡ place self.now.shared }
        requires other { place_of other ≡ place self.now.shared }
        ensures place { place_of result ≡ place_of pass }
        ensures joined { Joined IsLegal pass_of (caller pass) (caller other) (caller result) }
        ensures entries { KeepsEntries pass_of (caller pass) (caller other) (caller result) }
    {
        self.shared.join(pass, other)
    }

    /// Reads the length of the history, of which the pass has then seen that much. It doesn't wait.
    pub fn front(&self, pass: &mut Pass<V>) -> u64
        requires { place_of pass.old ≡ place self.now.shared }
        ensures place { place_of pass.new ≡ place_of pass.old }
        ensures length { result ≡ length (seen pass.new) }
        ensures watched { Watched IsLegal pass_of (caller pass.old) (caller pass.new) }
        ensures entries { SameEntries pass_of (caller pass.old) (caller pass.new) }
    {
        self.shared.front(pass)
    }

    /// Waits until the history is longer than what the pass had seen, and reads its length.
    pub fn await_change<R: Wait>(&self, rt: &R, pass: &mut Pass<V>)
        requires { place_of pass.old ≡ place self.now.shared }
        ensures place { place_of pass.new ≡ place_of pass.old }
        ensures longer { length (seen pass.old) < length (seen pass.new) }
        ensures watched { Watched IsLegal pass_of (caller pass.old) (caller pass.new) }
        ensures entries { SameEntries pass_of (caller pass.old) (caller pass.new) }
    {
        self.shared.await_change(rt, pass);
    }
}

// Tells a want of memory, where nothing was done, from what the machine answered.
fn if_memory<V>(
    answer: Result<DeploymentId, DeployRefused<V>>,
) -> Result<Result<DeploymentId, DeployRefused<V>>, DeployRefused<V>>
    ensures answered { IfOk result (λ same. same ≡ answer) }
    ensures sure { IfOk result (λ same. IfErr same (λ refused. (refused.why ≡ whys.NoMemory → ⊥))) }
    ensures without { IfErr result (λ refused. (answer ≡ Err refused) × (refused.why ≡ whys.NoMemory)) }
{
    match answer {
        Ok(id) => Ok(Ok(id)),
        Err(refused) => match refused.why {
            Why::NoMemory => Err(refused),
            Why::Refused(_) => Ok(Err(refused)),
        },
    }
}
