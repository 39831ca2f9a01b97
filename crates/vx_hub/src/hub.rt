ghost use Rattle.std.specs.Prelude.{◌≡◌, ◌<◌, ◌≤◌, ◌^◌, List, [], length, map, true, is_some, IsTrue, IfOk, IfErr, IsOk, OnErr};
ghost use Rattle.std.specs.Option.{option_map, option_to_list};
ghost use Rattle.vx_call.specs.declared.history.Traced.{Traced};
ghost use Rattle.vx_call.specs.declared.reply.Refusal.{Refusal};
ghost use Rattle.vx_call.specs.Built.{is_stored};
ghost use Rattle.vx_call.specs.Plain.{is_plain};
ghost use Rattle.vx_call.specs.Plain as plain;
ghost use Rattle.vx_call.specs.Passes.{passes};
ghost use Rattle.vx_instances.specs.Instances.{gives, gave, handler_in};
ghost use Rattle.vx_hub.specs.Handing.{gave_in};
ghost use Rattle.vx_hub.specs.Stands.{StandsFor, Meets, Keeps};
ghost use Rattle.vx_hub.specs.declared.verticles.Why.TheVariants as whys;

use crate::counts::{Counts, delivers, has_done, makes_message};
use crate::rows::plain::plain_row;
use crate::rows::shut::{closed, shut};
use crate::verticles::{
    Back, DeployOptions, DeployRefused, FinishRefused, Taken, Why, closes_hub, ends_life, gave,
    hand_over, handed, keep_again, leave_out_closed, not_deployed, settle_in,
};
use std::alloc::Global;
use std::marker::Model;
use vx_call::{Call, Lane, Refusal, Reply, Unmade};
use vx_context::Contexts;
use vx_core_bus::Bus;
use vx_core_life::{deploy, finish};
use vx_core_tasks::take;
use vx_data::{DeploymentId, EntryNo, Moment, NoMemory, PassNo};
use vx_instances::Instances;
use vx_life::Life;
use vx_timer::Timers;
use vx_verticle::Verticle;

/// How many entries a history has at most.
pub(crate) const LIMIT: u64 = 1 << 48;

/// The machine of one thread. It stands for a history, of which it keeps what the next replies need, and the verticles of
/// the contexts that are open and run no handler.
#[derive(Drop)]
pub struct Hub<V: Verticle> {
    pub(crate) counts: Counts,
    pub(crate) passes: u64,
    now: Moment,
    pub(crate) life: Life,
    pub(crate) contexts: Contexts,
    pub(crate) timers: Timers,
    bus: Bus,
    instances: Instances<V>,
}

impl<V: Verticle> Model for Hub<V> {
    ghost use Rattle.std.specs.Prelude.{◌≤◌};
    ghost use Rattle.vx_bus_store.specs.Stands.{HavePlaces};
    ghost use Rattle.vx_core_life.specs.Moving.{promised};
    ghost use Rattle.vx_hub.specs.Stores.{HubStore};
    ghost use Rattle.vx_hub.specs.Stands.{IsOfHistory};

    ghost Value = { HubStore };

    ghost use Rattle.std.specs.Coded.{codes};
    ghost use Rattle.vx_data.specs.contracts.body.Body as body;

    ghost coded = { Prim.hlevel (codes, body.the_row.coded) };

    ghost view = { λ a. record { counts = a.counts; passes = a.passes; now = a.now; life = a.life; contexts = a.contexts; timers = a.timers; bus = a.bus; instances = a.instances.kept } };

    ghost invariant = { λ a. IsOfHistory (record { counts = a.counts; passes = a.passes; now = a.now; life = a.life; contexts = a.contexts; timers = a.timers; bus = a.bus; instances = a.instances.kept }) × HavePlaces a.contexts a.bus × (promised a.life ≤ a.contexts.owed) };
}

impl<V: Verticle> Hub<V> {
    /// A hub that stands for the empty history, in which pass 0 is there. It takes no memory.
    pub fn new(alloc: Global) -> Hub<V>
        ensures empty { StandsFor result [] }
        ensures one_pass { result.passes ≡ 1 }
    {
        Hub {
            counts: Counts::new(),
            passes: 1,
            now: Moment::at(0),
            life: Life::new(alloc),
            contexts: Contexts::new(alloc),
            timers: Timers::new(alloc),
            bus: Bus::new(alloc),
            instances: Instances::new(alloc),
        }
    }

    /// Makes a plain call for a pass that is there, and gives the machine's reply. The call is one that has a body: of the
    /// event bus or of verticles.
    /// Each call is one more entry of the history, also where it is refused; a refused call changes nothing else.
    /// Where the history has 2^48 entries the reply is the refusal `Spent`, and no entry is added.
    /// Where memory runs out the call comes back, and the hub stands for the same history.
    pub fn step(&mut self, pass: PassNo, call: Call) -> Result<Reply, Unmade>
        requires known { pass.0 < self.old.passes }
        requires plain { IsTrue (is_plain call) }
        requires stored { is_stored call ≡ true }
        ensures answered_as_the_machine { IfOk result (λ reply. Meets self.old self.new pass call reply []) }
        ensures without_memory_as_before { OnErr result (Keeps self.old self.new) }
        ensures call_comes_back { IfErr result (λ unmade. unmade.call ≡ call) }
        ensures takes_no_memory { plain.takes_no_memory call ≡ true → IsOk result }
        ensures passes_stay { self.old.passes ≤ self.new.passes }
    {
        let at = self.counts.entries();
        if at >= LIMIT {
            call.let_go();
            return Ok(Reply::Refused(Refusal::Spent));
        }
        if let Some(refusal) = shut(&self.life, &call) {
            call.let_go();
            self.counts.add(false, false);
            return Ok(Reply::Refused(refusal));
        }
        let makes = makes_message(&call);
        let closes = closes_hub(&call);
        let context = ends_life(&self.contexts, pass, &call);
        let reply = plain_row(
            &mut self.passes,
            &mut self.now,
            &mut self.life,
            &mut self.contexts,
            &mut self.timers,
            &mut self.bus,
            EntryNo(at),
            pass,
            call,
        )?;
        self.counts.add(has_done(makes, &reply), delivers(&reply));
        leave_out_closed(
            &mut self.instances,
            &self.contexts,
            context,
            has_done(closes, &reply),
        );
        Ok(reply)
    }

    /// Deploys verticles for a pass that is there, one context each, below the verticle whose handler makes the call.
    /// Where it is refused, or memory runs out, the verticles come back.
    pub fn deploy(
        &mut self,
        pass: PassNo,
        options: DeployOptions,
        verticles: Vec<V>,
    ) -> Result<DeploymentId, DeployRefused<V>>
        requires known { pass.0 < self.old.passes }
        ensures done { IfOk result (λ id. Meets self.old self.new pass (Call.Deploy options.worker options.pool options.tell (length verticles.items)) (Reply.Deployment id) (map V.state verticles.items)) }
        ensures refused { IfErr result (λ refused. (why : Refusal) → refused.why ≡ whys.Refused why → Meets self.old self.new pass (Call.Deploy options.worker options.pool options.tell (length verticles.items)) (Reply.Refused why) (map V.state verticles.items)) }
        ensures without_memory_as_before { IfErr result (λ refused. refused.why ≡ whys.NoMemory → Keeps self.old self.new) }
        ensures comes_back { IfErr result (λ refused. refused.verticles ≡ verticles) }
        ensures passes_stay { self.old.passes ≤ self.new.passes }
    {
        let at = self.counts.entries();
        if at >= LIMIT {
            return Err(not_deployed(verticles, Why::Refused(Refusal::Spent)));
        }
        if let Some(refusal) = closed(&self.life) {
            self.counts.add(false, false);
            return Err(not_deployed(verticles, Why::Refused(refusal)));
        }
        if let Err(NoMemory) = self.instances.reserve(verticles.len()) {
            return Err(not_deployed(verticles, Why::NoMemory));
        }
        let row = deploy(
            &mut self.life,
            &mut self.contexts,
            &self.timers,
            &mut self.bus,
            EntryNo(at),
            pass,
            options.worker,
            &options.pool,
            options.tell,
            verticles.len() as u64,
        );
        match row {
            Ok(reply) => {
                self.counts.add(false, false);
                let settled = settle_in(&mut self.instances, EntryNo(at), &reply, verticles);
                reply.let_go();
                settled
            }
            Err(NoMemory) => Err(not_deployed(verticles, Why::NoMemory)),
        }
    }

    /// Takes the next task of a lane for a pass that is there, and gives the machine's reply: the task, `Idle`, `Stopped`
    /// where the hub is closed, or a refusal.
    /// With a handler's task of a verticle it hands out the verticle. It takes no memory.
    pub fn take(&mut self, pass: PassNo, lane: Lane) -> Taken<V>
        requires known { pass.0 < self.old.passes }
        ensures answered_as_the_machine { Meets self.old self.new pass (Call.Take lane) result.reply [] }
        ensures on_context { (history : List Traced) → StandsFor self.old history → pass.0 < passes history → result.context ≡ handler_in history result.reply }
        ensures gives { (history : List Traced) → StandsFor self.old history → pass.0 < passes history → option_map V.state result.verticle ≡ gives history (Call.Take lane) result.reply }
        ensures passes_stay { self.old.passes ≤ self.new.passes }
    {
        let at = self.counts.entries();
        if at >= LIMIT {
            return Taken {
                reply: Reply::Refused(Refusal::Spent),
                context: None,
                verticle: None,
            };
        }
        let reply = take(
            &mut self.life,
            &mut self.contexts,
            &self.timers,
            &mut self.bus,
            EntryNo(at),
            pass,
            lane,
        );
        self.counts.add(false, delivers(&reply));
        let context = handed(&self.contexts, pass, &reply);
        let verticle = hand_over(&mut self.instances, context);
        Taken {
            reply,
            context,
            verticle,
        }
    }

    /// Whether the task that a pass holds handed a verticle out.
    pub fn gave_verticle(&self, pass: PassNo) -> bool
        ensures kept { result ≡ gave_in self.entry.now.contexts pass }
        ensures gave { (history : List Traced) → StandsFor self.entry.now history → result ≡ gave history pass }
    {
        gave(&self.contexts, pass)
    }

    /// Ends the task that a pass holds, and takes back the verticle that was handed out with it: one comes back exactly
    /// where one was handed out. `Ok` where the machine answers Done; where it refuses, what was to come back is given back.
    /// A verticle whose context is closed is dropped. It takes no memory.
    pub fn finish(&mut self, pass: PassNo, back: Back<V>) -> Result<(), FinishRefused<V>>
        requires known { pass.0 < self.old.passes }
        requires there { is_some back.verticle ≡ gave_in self.old.contexts pass }
        ensures done { IfOk result (λ _. Meets self.old self.new pass (Call.Finish back.end) Reply.Done (option_to_list (option_map V.state back.verticle))) }
        ensures refused { IfErr result (λ refused. Meets self.old self.new pass (Call.Finish back.end) (Reply.Refused refused.why) (option_to_list (option_map V.state back.verticle))) }
        ensures comes_back { IfErr result (λ refused. refused.back ≡ back) }
        ensures passes_stay { self.old.passes ≤ self.new.passes }
    {
        let at = self.counts.entries();
        if at >= LIMIT {
            let why = Refusal::Spent;
            return Err(FinishRefused { back, why });
        }
        let context = self.contexts.held_context(pass);
        let ended = finish(
            &mut self.life,
            &mut self.contexts,
            &mut self.timers,
            &mut self.bus,
            EntryNo(at),
            pass,
            back.end,
        );
        self.counts.add(false, false);
        match ended {
            Ok(()) => {
                leave_out_closed(&mut self.instances, &self.contexts, context, false);
                keep_again(&mut self.instances, context, back.verticle);
                Ok(())
            }
            Err(why) => Err(FinishRefused { back, why }),
        }
    }
}
