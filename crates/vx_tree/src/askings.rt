ghost use Rattle.std.specs.Prelude.{◌≡◌, ℕ, nat_eq, if◌then◌else◌, true, None, Some, OnOk, OnErr};
ghost use Rattle.std.specs.Option.{option_or};
ghost use Rattle.indexmap.specs.IndexMap.{get};
ghost use Rattle.vx_data.specs.declared.ids.DeploymentId.{DeploymentId};
ghost use Rattle.vx_data.specs.Ids.{same_deployment};
ghost use Rattle.vx_tree.specs.Nodes.{asked_at, is_known, has_asked_parent, is_one_of, below};
ghost use Rattle.vx_tree.specs.Kept.{AreKept};

use crate::node::Node;
use indexmap::IndexMap;
use vx_data::{DeploymentId, EntryNo, NoMemory};

/// The entry at which a deployment was asked to end, if it was.
pub fn asked_at(asked: &IndexMap<u64, Option<EntryNo>>, id: DeploymentId) -> Option<EntryNo>
    ensures { result ≡ asked_at id asked.now.entries }
{
    *asked.get(&id.0.0)?
}

/// Makes a deployment known, which was not asked to end. It fails where memory runs out.
pub fn make_known(
    asked: &mut IndexMap<u64, Option<EntryNo>>,
    id: DeploymentId,
) -> Result<(), NoMemory>
    ensures ok { OnOk result ((k : ℕ) → get nat_eq asked.new k ≡ (if nat_eq k id.0.0 then Some None else get nat_eq asked.old k)) }
    ensures err { OnErr result (asked.new.entries ≡ asked.old.entries) }
{
    asked.insert(id.0.0, None)?;
    Ok(())
}

// Notes the entry at which a deployment was asked to end, where none is noted.
fn note(asked: &mut IndexMap<u64, Option<EntryNo>>, id: DeploymentId, at: EntryNo)
    requires { is_known id asked.old.entries ≡ true }
    ensures first { (d : DeploymentId) → asked_at d asked.new.entries ≡ option_or (asked_at d asked.old.entries) (if same_deployment d id then Some at else None) }
    ensures known { (d : DeploymentId) → is_known d asked.new.entries ≡ is_known d asked.old.entries }
{
    if let Some(entry) = asked.get_mut(&id.0.0) {
        *entry = entry.or(Some(at));
    }
}

// Whether a deployment has a parent that was asked to end.
fn is_below_asked(asked: &IndexMap<u64, Option<EntryNo>>, node: Node) -> bool
    ensures { result ≡ has_asked_parent asked.now.entries node }
{
    match node.parent {
        Some(parent) => asked_at(asked, parent).is_some(),
        None => false,
    }
}

/// Notes the entry at which a deployment and all below it were asked to end, where none is noted. Of one that was asked
/// before, each child was asked too, so it is enough to see whether the parent was asked.
pub fn note_below(
    nodes: &[Node],
    asked: &mut IndexMap<u64, Option<EntryNo>>,
    top: DeploymentId,
    at: EntryNo,
)
    requires kept { AreKept nodes.now asked.old.entries }
    requires there { is_known top asked.old.entries ≡ true }
    ensures asked { (d : DeploymentId) → asked_at d asked.new.entries ≡ option_or (asked_at d asked.old.entries) (if is_one_of (below nodes.now top) d then Some at else None) }
    ensures known { (d : DeploymentId) → is_known d asked.new.entries ≡ is_known d asked.old.entries }
    ensures kept { AreKept nodes.now asked.new.entries }
{
    note(asked, top, at);
    for node in nodes {
        if is_below_asked(asked, *node) {
            note(asked, node.id, at);
        }
    }
}
