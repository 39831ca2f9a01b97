use std::test::Fail;
use vx_data::{ContextId, EntryNo, NoMemory, ServerId, Text};
use vx_server::Servers;

const FIRST: ServerId = ServerId(EntryNo(2));

const SECOND: ServerId = ServerId(EntryNo(3));

const ELSEWHERE: ServerId = ServerId(EntryNo(4));

const CONTEXT: ContextId = ContextId {
    entry: EntryNo(0),
    instance: 0,
};

const OTHER: ContextId = ContextId {
    entry: EntryNo(1),
    instance: 0,
};

// Lets two contexts listen at one port, and one of them at another, and says whether those at each port take turns.
fn take_turns(servers: &mut Servers, host: &Text) -> Result<bool, NoMemory> {
    servers.listen(FIRST, CONTEXT, host, 8080)?;
    servers.listen(SECOND, OTHER, host, 8080)?;
    servers.listen(ELSEWHERE, OTHER, host, 8081)?;
    Ok(
        servers.choose(SECOND) == Some(FIRST)
            && servers.choose(ELSEWHERE) == Some(ELSEWHERE)
            && servers.choose(SECOND) == Some(SECOND)
            && servers.choose(FIRST) == Some(FIRST)
            && servers.context(SECOND) == Some(OTHER),
    )
}

// Takes the first server out, and closes the other context.
fn leave(servers: &mut Servers) -> bool {
    let removed = servers.remove(FIRST) && !servers.remove(FIRST);
    servers.close(OTHER);
    removed && servers.choose(SECOND).is_none() && servers.listening().is_empty()
}

#[test]
fn servers_take_turns(rt: HostRuntime) -> Result<(), Fail> {
    let host = Text::constant("localhost");
    let mut servers = Servers::new(rt.alloc());
    let first_time = take_turns(&mut servers, &host)?;
    let left = leave(&mut servers);
    let second_time = take_turns(&mut servers, &host)?;
    assert!(rt; first_time && left && second_time);
    Ok(())
}
