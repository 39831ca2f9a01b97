ghost use Rattle.std.specs.Prelude.{◌≡◌, not};
ghost use Rattle.std.specs.List.{list_any};
ghost use Rattle.vx_tree.specs.Nodes.{is_node, is_child_of, stays, there_of};

use crate::askings::asked_at;
use crate::contexts::has_instance;
use indexmap::IndexMap;
use vx_data::{ContextId, DeploymentId, EntryNo};

/// A deployment, and the one that it is right below, if any.
#[derive(Clone, Copy)]
pub struct Node {
    pub id: DeploymentId,
    pub parent: Option<DeploymentId>,
}

/// Whether a deployment is among these.
pub fn is_there(nodes: &[Node], id: DeploymentId) -> bool
    ensures { result ≡ list_any (is_node id) nodes.now }
{
    nodes.iter().any(|node| id == node.id)
}

/// Whether a child of a deployment is among these.
pub fn has_child(nodes: &[Node], id: DeploymentId) -> bool
    ensures { result ≡ list_any (is_child_of id) nodes.now }
{
    nodes.iter().any(|node| node.parent == Some(id))
}

// Whether a deployment stays, where `later` are those made after it that stay.
fn stays(
    node: Node,
    asked: &IndexMap<u64, Option<EntryNo>>,
    live: &[ContextId],
    later: &[Node],
) -> bool
    ensures { result ≡ stays asked.now.entries live.now node later.now }
{
    asked_at(asked, node.id).is_none() || has_instance(live, node.id) || has_child(later, node.id)
}

/// Leaves out the deployments that don't stay. Children were made later than their parents, so the last one is tried
/// first.
pub fn settle(nodes: &mut Vec<Node>, asked: &IndexMap<u64, Option<EntryNo>>, live: &[ContextId])
    ensures { nodes.new.items ≡ there_of asked.now.entries live.now nodes.old.items }
{
    let mut place = nodes.len();
    while place > 0 {
        place -= 1;
        if !stays(nodes[place], asked, live, &nodes[place + 1..]) {
            nodes.remove(place);
        }
    }
}
