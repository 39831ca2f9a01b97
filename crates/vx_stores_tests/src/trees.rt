use std::test::Fail;
use vx_data::{ContextId, DeploymentId, EntryNo, NoMemory};
use vx_tree::Tree;

const PARENT: DeploymentId = DeploymentId(EntryNo(1));

const CHILD: DeploymentId = DeploymentId(EntryNo(4));

const ABOVE: ContextId = ContextId {
    entry: EntryNo(1),
    instance: 0,
};

const BELOW: ContextId = ContextId {
    entry: EntryNo(4),
    instance: 0,
};

// A deployment of one verticle with a child of one verticle, both started, and asked to end.
fn grown(rt: &HostRuntime) -> Result<Tree, NoMemory> {
    let mut tree = Tree::new(rt.alloc());
    tree.add(PARENT, None, 1)?;
    tree.add(CHILD, Some(PARENT), 1)?;
    tree.started(ABOVE);
    tree.started(BELOW);
    tree.ask(PARENT, EntryNo(9));
    Ok(tree)
}

// Stops both, the child first, and says whether each was to stop, once.
fn stop(tree: &mut Tree) -> bool {
    let first = tree.next_stop() == Some(BELOW) && tree.next_stop().is_none();
    tree.closed(BELOW);
    let second = tree.gone(CHILD) && tree.next_stop() == Some(ABOVE) && !tree.gone(PARENT);
    tree.closed(ABOVE);
    first && second && tree.gone(PARENT) && tree.least_live().is_none()
}

#[test]
fn children_stop_first(rt: HostRuntime) -> Result<(), Fail> {
    let mut tree = grown(&rt)?;
    let asked = tree.asked(CHILD) == Some(EntryNo(9)) && tree.least_live() == Some(PARENT);
    let started = !tree.is_starting(BELOW) && !tree.has_starting(PARENT);
    assert!(rt; asked && started && stop(&mut tree));
    Ok(())
}
