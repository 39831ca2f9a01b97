ghost use Rattle.std.specs.Prelude.{◌≡◌, ℕ, ◌+◌, ◌-◌, ◌%◌, ◌^◌, ◌<◌, ◌≤◌, ◌++◌, not, if◌then◌else◌, true, List, [], ◌∷◌, map, filter, find, slice_get, length, Option, None, Some, All, OnOk, OnErr};
ghost use Rattle.std.specs.List.{list_any};
ghost use Rattle.std.specs.Option.{option_or, option_map};
ghost use Rattle.vx_data.specs.Ids.{same_context, same_deployment};
ghost use Rattle.vx_message.specs.declared.Lane.TheVariants as lanes;
ghost use Rattle.vx_tree.specs.declared.node.Node.{Node};
ghost use Rattle.vx_tree.specs.Nodes.{asked_at, is_known, is_there, is_one_of, below, may_be_below, deployment_of, without, without_any, may_stop};
ghost use Rattle.vx_life.specs.Stores.{LifeStore, no_lives, deploy_told, undeploy_told, is_taken, with_taken, telling, failing, is_deployed, is_gone, deploy_result, closed_in, without_any_id};
ghost use Rattle.vx_life.specs.Steps.{Deploys, Asks, Fails};

use crate::record::{
    DeploymentRecord, deploy_told, failure_of, leave_out_id, note_failure, note_tell, undeploy_told,
};
use crate::stop::{Stop, append_stops, is_taken, note_taken};
use std::alloc::Global;
use std::marker::Model;
use vx_data::{ContextId, DeploymentId, EntryNo, NoMemory};
use vx_message::{DoneResult, Lane};
use vx_tree::{Tree, append, leave_out};

/// The lives of verticles: the deployments that are there with the contexts of their verticles, which starts and stops did
/// not end, who is told of deployments, and whether the hub is closed. What an entry does stands before what comes with it:
/// `next_deployed`, `next_gone` and `next_stop` give that, one after another.
#[derive(Drop)]
pub struct Life {
    // how many event loops take turns, 1 to 16
    loops: u32,
    // how many instances of standard verticles were made
    standard: u64,
    tree: Tree,
    // contexts of verticles whose stop did not end
    unstopped: Vec<ContextId>,
    // all contexts of verticles, in the order of making
    stops: Vec<Stop>,
    // all deployments, in the order of making
    records: Vec<DeploymentRecord>,
    // deployments whose end of deploying is still to come
    deploying: Vec<DeploymentId>,
    // deployments whose being gone is still to come
    ending: Vec<DeploymentId>,
    closed: Option<EntryNo>,
}

impl Model for Life {
    ghost use Rattle.std.specs.Prelude.{◌<◌, ◌≤◌};
    ghost use Rattle.vx_life.specs.Stores.{LifeStore};

    ghost Value = { LifeStore };

    ghost view = { λ a. record {
      loops = a.loops;
      standard = a.standard;
      tree = a.tree;
      unstopped = a.unstopped.items;
      stops = a.stops.items;
      records = a.records.items;
      deploying = a.deploying.items;
      ending = a.ending.items;
      closed = a.closed;
    } };

    ghost invariant = { λ a. (0 < a.loops) × (a.loops ≤ 16) };
}

impl Life {
    /// No deployments, and two event loops. It takes no memory.
    pub fn new(alloc: Global) -> Life
        ensures { result ≡ no_lives }
    {
        Life {
            loops: 2,
            standard: 0,
            tree: Tree::new(alloc),
            unstopped: Vec::new(alloc),
            stops: Vec::new(alloc),
            records: Vec::new(alloc),
            deploying: Vec::new(alloc),
            ending: Vec::new(alloc),
            closed: None,
        }
    }

    /// So many event loops, 1 to 16, take turns from now on. It takes no memory.
    pub fn set_loops(&mut self, count: u32)
        requires least { 1 ≤ count }
        requires most { count ≤ 16 }
        ensures { self.new ≡ record self.old { loops = count } }
    {
        self.loops = count;
    }

    /// The event loop of the standard instance of this number among those that the next entry makes.
    pub fn loop_of(&self, number: u32) -> Lane
        requires { self.now.standard + number < 2 ^ 64 }
        ensures { result ≡ lanes.Loop ((self.now.standard + number) % self.now.loops) }
    {
        let turn = (self.standard + u64::from(number)) % u64::from(self.loops);
        Lane::Loop(turn as u8)
    }

    /// Adds a deployment of so many verticles, made later than all that are there, with the context that is told as it is
    /// deployed. Workers get no event loop. It fails where memory runs out, and then all stays as it was. No other call
    /// takes memory.
    pub fn deploy(
        &mut self,
        id: DeploymentId,
        parent: Option<DeploymentId>,
        worker: bool,
        tell: Option<ContextId>,
        count: u32,
    ) -> Result<(), NoMemory>
        requires later { All (λ node. node.id.0.0 < id.0.0) self.old.tree.there }
        requires above { may_be_below parent self.old.tree.there self.old.tree.asked ≡ true }
        requires room { self.old.standard + count < 2 ^ 64 }
        ensures ok { OnOk result (Deploys id parent worker tell count self.old self.new) }
        ensures err { OnErr result (self.new ≡ self.old) }
    {
        self.unstopped.reserve(count as usize)?;
        self.stops.reserve(count as usize)?;
        self.records.reserve(1)?;
        self.deploying.reserve(1)?;
        self.ending.reserve(1)?;
        self.tree.add(id, parent, count)?;
        append(&mut self.unstopped, id, count);
        append_stops(&mut self.stops, id, count);
        self.records
            .push(DeploymentRecord {
                id,
                deploy_tell: tell,
                undeploy_tell: None,
                failure: None,
            })
            .unwrap();
        self.deploying.push(id).unwrap();
        self.ending.push(id).unwrap();
        if !worker {
            self.standard += u64::from(count);
        }
        Ok(())
    }

    /// Asks a deployment to end, at an entry, with all below it, and notes the context that is told as it is gone. It takes
    /// no memory.
    pub fn ask(&mut self, id: DeploymentId, tell: Option<ContextId>, at: EntryNo)
        requires { is_known id self.old.tree.asked ≡ true }
        ensures { Asks id tell at self.old self.new }
    {
        self.tree.ask(id, at);
        note_tell(&mut self.records, id, tell);
    }

    /// The start of a context ended well. It takes no memory.
    pub fn started(&mut self, context: ContextId)
        ensures { self.new ≡ record self.old { tree = record self.old.tree { starting = without context self.old.tree.starting } } }
    {
        self.tree.started(context);
    }

    /// The start of a context failed at an entry: the context is closed, and its deployment asked to end with all below it.
    /// It takes no memory.
    pub fn start_failed(&mut self, context: ContextId, failure: DoneResult, at: EntryNo)
        requires { is_known (deployment_of context) self.old.tree.asked ≡ true }
        ensures { Fails context failure at self.old self.new }
    {
        let deployment = DeploymentId(context.entry);
        self.tree.started(context);
        self.tree.ask(deployment, at);
        self.tree.closed(context);
        note_failure(&mut self.records, deployment, failure);
    }

    /// The stop of a context was taken. It takes no memory.
    pub fn stop_taken(&mut self, context: ContextId)
        ensures { self.new ≡ record self.old { stops = map (with_taken context) self.old.stops } }
    {
        note_taken(&mut self.stops, context);
    }

    /// The stop of a context ended, and the context is closed. It takes no memory.
    pub fn stopped(&mut self, context: ContextId)
        ensures { self.new ≡ record self.old { tree = closed_in context self.old.tree; unstopped = without context self.old.unstopped } }
    {
        leave_out(&mut self.unstopped, context);
        self.tree.closed(context);
    }

    /// The hub is closed at an entry. It takes no memory.
    pub fn close(&mut self, at: EntryNo)
        ensures { self.new ≡ record self.old { closed = option_or self.old.closed (Some at) } }
    {
        self.closed = self.closed.or(Some(at));
    }

    /// The first deployment whose deploying has ended and of which it was not said yet, if there is one. From now on it is
    /// said. It takes no memory.
    pub fn next_deployed(&mut self) -> Option<DeploymentId>
        ensures first { result ≡ find (is_deployed self.old) self.old.deploying }
        ensures said { self.new ≡ record self.old { deploying = without_any_id result self.old.deploying } }
    {
        let next = self.first_deployed()?;
        leave_out_id(&mut self.deploying, next);
        Some(next)
    }

    /// The first deployment that is gone and of which it was not said yet, if there is one. From now on it is said. It takes
    /// no memory.
    pub fn next_gone(&mut self) -> Option<DeploymentId>
        ensures first { result ≡ find (is_gone self.old) self.old.ending }
        ensures said { self.new ≡ record self.old { ending = without_any_id result self.old.ending } }
    {
        let next = self.first_gone()?;
        leave_out_id(&mut self.ending, next);
        Some(next)
    }

    /// The first context that may stop and is not told so yet, if there is one. From now on it is told. It takes no memory.
    pub fn next_stop(&mut self) -> Option<ContextId>
        ensures first { result ≡ find (may_stop self.old.tree) self.old.tree.to_stop }
        ensures told { self.new ≡ record self.old { tree = record self.old.tree { to_stop = without_any result self.old.tree.to_stop } } }
    {
        self.tree.next_stop()
    }

    /// How many deployments were made, those that are gone included.
    pub fn deployment_count(&self) -> usize
        ensures { result ≡ length self.now.records }
    {
        self.records.len()
    }

    /// The context that is told that a deployment was made.
    pub fn deploy_told(&self, id: DeploymentId) -> Option<ContextId>
        ensures { result ≡ deploy_told id self.now.records }
    {
        deploy_told(&self.records, id)
    }

    /// The context that is told that a deployment is gone.
    pub fn undeploy_told(&self, id: DeploymentId) -> Option<ContextId>
        ensures { result ≡ undeploy_told id self.now.records }
    {
        undeploy_told(&self.records, id)
    }

    /// How deploying ended: well as the last start did, or with the first failure as the deployment is gone.
    pub fn deploy_result(&self, id: DeploymentId) -> Option<DoneResult>
        ensures { result ≡ deploy_result self.now id }
    {
        match failure_of(&self.records, id) {
            Some(failure) if self.tree.gone(id) => Some(failure),
            None if !self.tree.has_starting(id) => Some(DoneResult::Ok),
            _ => None,
        }
    }

    /// Whether a deployment is gone, or never was.
    pub fn is_gone(&self, id: DeploymentId) -> bool
        ensures { result ≡ is_gone self.now id }
    {
        self.tree.gone(id)
    }

    /// The entry at which a deployment was asked to end, if it was.
    pub fn asked(&self, id: DeploymentId) -> Option<EntryNo>
        ensures { result ≡ asked_at id self.now.tree.asked }
    {
        self.tree.asked(id)
    }

    /// The first deployment that is there.
    pub fn first_there(&self) -> Option<DeploymentId>
        ensures { result ≡ option_map (λ (node : Node). node.id) (slice_get self.now.tree.there 0) }
    {
        self.tree.least_live()
    }

    /// Whether the start of a context did not end.
    pub fn is_unstarted(&self, context: ContextId) -> bool
        ensures { result ≡ list_any (same_context context) self.now.tree.starting }
    {
        self.tree.is_starting(context)
    }

    /// Whether the stop of a context did not end.
    pub fn is_unstopped(&self, context: ContextId) -> bool
        ensures { result ≡ list_any (same_context context) self.now.unstopped }
    {
        self.unstopped.iter().any(|other| context == *other)
    }

    /// Whether the stop of a context was taken.
    pub fn is_stop_taken(&self, context: ContextId) -> bool
        ensures { result ≡ is_taken context self.now.stops }
    {
        is_taken(&self.stops, context)
    }

    /// The entry that closed the hub.
    pub fn closed_at(&self) -> Option<EntryNo>
        ensures { result ≡ self.now.closed }
    {
        self.closed
    }

    fn first_deployed(&self) -> Option<DeploymentId>
        ensures { result ≡ find (is_deployed self.now) self.now.deploying }
    {
        self.deploying
            .iter()
            .copied()
            .find(|id| self.deploy_result(*id).is_some())
    }

    fn first_gone(&self) -> Option<DeploymentId>
        ensures { result ≡ find (is_gone self.now) self.now.ending }
    {
        self.ending.iter().copied().find(|id| self.tree.gone(*id))
    }
}
