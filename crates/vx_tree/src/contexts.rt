ghost use Rattle.std.specs.Prelude.{◌≡◌, ◌+◌, ◌≤◌, ◌++◌, vec_len, vec_capacity};
ghost use Rattle.std.specs.List.{list_any};
ghost use Rattle.vx_data.specs.Ids.{same_context};
ghost use Rattle.vx_tree.specs.Nodes.{contexts_of, is_instance_of, without};

use vx_data::{ContextId, DeploymentId};

/// Whether a context of a deployment is among these.
pub fn has_instance(contexts: &[ContextId], id: DeploymentId) -> bool
    ensures { result ≡ list_any (is_instance_of id) contexts.now }
{
    contexts.iter().any(|context| id.0 == context.entry)
}

/// Whether a context is among these.
pub fn has_context(contexts: &[ContextId], context: ContextId) -> bool
    ensures { result ≡ list_any (same_context context) contexts.now }
{
    contexts.iter().any(|other| context == *other)
}

/// Adds so many contexts of a deployment, for which there is room.
pub fn append(contexts: &mut Vec<ContextId>, id: DeploymentId, count: u32)
    requires { vec_len contexts.old + count ≤ vec_capacity contexts.old }
    ensures { contexts.new.items ≡ contexts.old.items ++ contexts_of id 0 count }
{
    for instance in 0..count {
        let context = ContextId {
            entry: id.0,
            instance,
        };
        contexts.push(context).unwrap();
    }
}

/// Leaves out a context.
pub fn leave_out(contexts: &mut Vec<ContextId>, context: ContextId)
    ensures { contexts.new.items ≡ without context contexts.old.items }
{
    contexts.retain(|other| context != *other);
}
