use std::test::Fail;
use vx_data::{ContextId, DeploymentId, EntryNo, NoMemory};
use vx_life::Life;

const DEPLOYED: DeploymentId = DeploymentId(EntryNo(1));

const CONTEXT: ContextId = ContextId {
    entry: EntryNo(1),
    instance: 0,
};

// A deployment of one verticle, which started, and which was asked to end.
fn asked(rt: &HostRuntime) -> Result<Life, NoMemory> {
    let mut life = Life::new(rt.alloc());
    life.deploy(DEPLOYED, None, false, Some(CONTEXT), 1)?;
    life.started(CONTEXT);
    life.ask(DEPLOYED, Some(CONTEXT), EntryNo(4));
    Ok(life)
}

#[test]
fn a_deployment_comes_and_goes(rt: HostRuntime) -> Result<(), Fail> {
    let mut life = asked(&rt)?;
    let deployed = life.next_deployed() == Some(DEPLOYED) && life.next_deployed().is_none();
    let stops = life.next_stop() == Some(CONTEXT) && life.next_gone().is_none();
    life.stopped(CONTEXT);
    let gone = life.next_gone() == Some(DEPLOYED) && life.next_gone().is_none();
    assert!(rt; deployed && stops && gone && life.undeploy_told(DEPLOYED) == Some(CONTEXT));
    Ok(())
}
