ghost use Rattle.std.specs.Prelude.{◌≡◌, ℕ, ◌<◌, ◌≤◌, ◌++◌, ◌||◌, if◌then◌else◌, not, List, [], ◌∷◌, find, filter, slice_get, is_some, true, Option, None, Some, All, IfSome, OnOk, OnErr};
ghost use Rattle.std.specs.Option.{option_or, option_map};
ghost use Rattle.std.specs.List.{list_any};
ghost use Rattle.vx_data.specs.declared.ids.ContextId.{ContextId};
ghost use Rattle.vx_data.specs.declared.ids.DeploymentId.{DeploymentId};
ghost use Rattle.vx_data.specs.declared.ids.EntryNo.{EntryNo};
ghost use Rattle.vx_data.specs.Ids.{same_context, same_deployment};
ghost use Rattle.vx_tree.specs.declared.node.Node.{Node};
ghost use Rattle.vx_tree.specs.Nodes.{TreeStore, AreApart, contexts_of, asked_at, is_known, is_there, is_instance_of, is_one_of, below, may_be_below, there_of, may_stop, without, without_any};

use crate::askings::{asked_at, make_known, note_below};
use crate::contexts::{append, has_context, has_instance, leave_out};
use crate::node::{Node, has_child, is_there, settle};
use indexmap::IndexMap;
use std::alloc::Global;
use std::marker::Model;
use vx_data::{ContextId, DeploymentId, EntryNo, NoMemory};

/// Deployments that are there, in the order of making, and the contexts of their verticles.
#[derive(Drop)]
pub struct Tree {
    nodes: Vec<Node>,
    // of each deployment that ever was, by its number
    asked: IndexMap<u64, Option<EntryNo>>,
    live: Vec<ContextId>,
    starting: Vec<ContextId>,
    to_stop: Vec<ContextId>,
}

impl Model for Tree {
    ghost use Rattle.vx_tree.specs.Nodes.{TreeStore};
    ghost use Rattle.vx_tree.specs.Kept.{AreKept};

    ghost Value = { TreeStore };

    ghost view = { λ a. record { there = a.nodes.items; asked = a.asked.entries; live = a.live.items; starting = a.starting.items; to_stop = a.to_stop.items } };

    ghost invariant = { λ a. AreKept a.nodes.items a.asked.entries };
}

impl Tree {
    /// No deployments. It takes no memory.
    pub fn new(alloc: Global) -> Tree
        ensures { result ≡ record { there = []; asked = []; live = []; starting = []; to_stop = [] } }
    {
        Tree {
            nodes: Vec::new(alloc),
            asked: IndexMap::new(alloc),
            live: Vec::new(alloc),
            starting: Vec::new(alloc),
            to_stop: Vec::new(alloc),
        }
    }

    /// Adds a deployment of so many verticles, made later than all that are there. One that was asked to end gets no child.
    /// It fails where memory runs out, and then all stays as it was.
    pub fn add(
        &mut self,
        id: DeploymentId,
        parent: Option<DeploymentId>,
        count: u32,
    ) -> Result<(), NoMemory>
        requires later { All (λ node. node.id.0.0 < id.0.0) self.old.there }
        requires above { may_be_below parent self.old.there self.old.asked ≡ true }
        ensures there { OnOk result (self.new.there ≡ self.old.there ++ record { id = id; parent = parent } ∷ []) }
        ensures asked { OnOk result ((d : DeploymentId) → asked_at d self.new.asked ≡ (if same_deployment d id then None else asked_at d self.old.asked)) }
        ensures known { OnOk result ((d : DeploymentId) → is_known d self.new.asked ≡ (same_deployment d id || is_known d self.old.asked)) }
        ensures live { OnOk result (self.new.live ≡ self.old.live ++ contexts_of id 0 count) }
        ensures starting { OnOk result (self.new.starting ≡ self.old.starting ++ contexts_of id 0 count) }
        ensures to_stop { OnOk result (self.new.to_stop ≡ self.old.to_stop ++ contexts_of id 0 count) }
        ensures err { OnErr result (self.new ≡ self.old) }
    {
        self.nodes.reserve(1)?;
        self.live.reserve(count as usize)?;
        self.starting.reserve(count as usize)?;
        self.to_stop.reserve(count as usize)?;
        make_known(&mut self.asked, id)?;
        self.nodes.push(Node { id, parent }).unwrap();
        append(&mut self.live, id, count);
        append(&mut self.starting, id, count);
        append(&mut self.to_stop, id, count);
        Ok(())
    }

    /// Asks a deployment to end, at an entry, and all below it. Those that were asked before keep their entry. Of one that
    /// is gone all below it were asked, so nothing changes. It takes no memory.
    pub fn ask(&mut self, id: DeploymentId, at: EntryNo)
        requires { is_known id self.old.asked ≡ true }
        ensures asked { (d : DeploymentId) → asked_at d self.new.asked ≡ option_or (asked_at d self.old.asked) (if is_one_of (below self.old.there id) d then Some at else None) }
        ensures known { (d : DeploymentId) → is_known d self.new.asked ≡ is_known d self.old.asked }
        ensures rest { self.new ≡ record self.old { there = there_of self.new.asked self.old.live self.old.there; asked = self.new.asked } }
    {
        note_below(&self.nodes, &mut self.asked, id, at);
        settle(&mut self.nodes, &self.asked, &self.live);
    }

    /// The start of a context is over. It takes no memory.
    pub fn started(&mut self, context: ContextId)
        ensures { self.new ≡ record self.old { starting = without context self.old.starting } }
    {
        leave_out(&mut self.starting, context);
    }

    /// A context is closed: it stops no more, and its deployment may be gone. It takes no memory.
    pub fn closed(&mut self, context: ContextId)
        ensures { self.new ≡ record self.old { there = there_of self.old.asked (without context self.old.live) self.old.there; live = without context self.old.live; to_stop = without context self.old.to_stop } }
    {
        leave_out(&mut self.live, context);
        leave_out(&mut self.to_stop, context);
        settle(&mut self.nodes, &self.asked, &self.live);
    }

    /// The first context that may stop and is not told so yet, if there is one: its deployment was asked to end and has no
    /// children any more, and its start is over. From now on it is told. It takes no memory.
    pub fn next_stop(&mut self) -> Option<ContextId>
        ensures first { result ≡ find (may_stop self.old) self.old.to_stop }
        ensures told { self.new ≡ record self.old { to_stop = without_any result self.old.to_stop } }
    {
        let next = self.first_to_stop()?;
        leave_out(&mut self.to_stop, next);
        Some(next)
    }

    /// Whether a deployment is gone, or never was.
    pub fn gone(&self, id: DeploymentId) -> bool
        ensures { result ≡ not (is_there id self.now.there) }
    {
        !is_there(&self.nodes, id)
    }

    /// The entry at which a deployment was asked to end, if it was.
    pub fn asked(&self, id: DeploymentId) -> Option<EntryNo>
        ensures { result ≡ asked_at id self.now.asked }
    {
        asked_at(&self.asked, id)
    }

    /// The first deployment that is there, which has the least id.
    pub fn least_live(&self) -> Option<DeploymentId>
        ensures first { result ≡ option_map (λ (node : Node). node.id) (slice_get self.now.there 0) }
        ensures least { IfSome result (λ id. All (λ node. id.0.0 ≤ node.id.0.0) self.now.there) }
    {
        self.nodes.first().map(|node| node.id)
    }

    /// Whether the start of a context is not over.
    pub fn is_starting(&self, context: ContextId) -> bool
        ensures { result ≡ list_any (same_context context) self.now.starting }
    {
        has_context(&self.starting, context)
    }

    /// Whether the start of a context of a deployment is not over.
    pub fn has_starting(&self, id: DeploymentId) -> bool
        ensures { result ≡ list_any (is_instance_of id) self.now.starting }
    {
        has_instance(&self.starting, id)
    }

    // Whether a context may stop.
    fn may_stop(&self, context: ContextId) -> bool
        ensures { result ≡ may_stop self.now context }
    {
        let id = DeploymentId(context.entry);
        asked_at(&self.asked, id).is_some()
            && !has_context(&self.starting, context)
            && !has_child(&self.nodes, id)
    }

    // The first context that may stop and is not told so yet.
    fn first_to_stop(&self) -> Option<ContextId>
        ensures { result ≡ find (may_stop self.now) self.now.to_stop }
    {
        self.to_stop
            .iter()
            .copied()
            .find(|context| self.may_stop(*context))
    }
}

/// Calls of `next_stop` until there is none give the contexts that may stop, in order, each once.
pub fn next_stops_come_in_order()
    ensures next { (tree : TreeStore) (next : ContextId) → AreApart tree.to_stop → find (may_stop tree) tree.to_stop ≡ Some next → filter (may_stop tree) tree.to_stop ≡ next ∷ filter (may_stop tree) (without next tree.to_stop) }
    ensures last { (tree : TreeStore) → find (may_stop tree) tree.to_stop ≡ None → filter (may_stop tree) tree.to_stop ≡ [] }
{}

/// What is gone stays gone, as more deployments are asked to end and contexts are closed: which of all deployments are
/// there can be seen from those that were there before.
pub fn gone_ones_stay_gone()
    ensures { (old new : List (ℕ × Option EntryNo)) (live left : List ContextId) (nodes : List Node) → ((d : DeploymentId) → is_some (asked_at d old) ≡ true → is_some (asked_at d new) ≡ true) → ((d : DeploymentId) → list_any (is_instance_of d) left ≡ true → list_any (is_instance_of d) live ≡ true) → there_of new left (there_of old live nodes) ≡ there_of new left nodes }
{}
