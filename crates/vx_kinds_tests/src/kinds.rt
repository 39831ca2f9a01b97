use std::alloc::Global;
use std::test::Fail;
use vx_data::{
    Body, ConsumerId, ContextId, DeploymentId, EntryNo, Headers, MessageId, NoMemory, Numbers, Text,
};
use vx_kinds::HostKinds;
use vx_message::{DoneResult, Message, Outcome};
use vx_verticle::{Acts, End, Event, KindFault, KindSpec, Kinds, Task, Verticle};

const CONTEXT: ContextId = ContextId {
    entry: EntryNo(0),
    instance: 0,
};

// A spec with both addresses alike, and no numbers.
fn spec(alloc: Global, kind: &'static str) -> Result<KindSpec, NoMemory> {
    Ok(KindSpec {
        kind: Text::constant(kind),
        address: Text::constant("s"),
        to: Text::constant("s"),
        config: Numbers::new(alloc, &[])?,
    })
}

// A request for a consumer.
fn request(alloc: Global) -> Task {
    Task::Deliver {
        consumer: ConsumerId(EntryNo(1)),
        message: Message {
            id: MessageId(EntryNo(2)),
            address: Text::constant("s"),
            headers: Headers::empty(alloc),
            body: Body::int(5),
            request: true,
            publish: false,
        },
    }
}

// A reply to a request.
fn reply(alloc: Global) -> Task {
    Task::Outcome {
        request: MessageId(EntryNo(2)),
        outcome: Outcome::Ok {
            headers: Headers::empty(alloc),
            body: Body::int(5),
            again: None,
        },
    }
}

// How many acts a verticle has at a task, and how the task ends.
fn acts_at<V: Verticle>(alloc: Global, verticle: &mut V, task: Task) -> (usize, End) {
    let context = CONTEXT;
    let event = Event { context, task };
    let mut acts = Acts::new(alloc);
    let end = verticle.handle(&event, &mut acts);
    (acts.into_items().len(), end)
}

// How many acts a verticle of this kind has as it starts and at another task, how the two end, and where its kind stands
// in the table.
fn played<K: Kinds>(
    alloc: Global,
    kinds: &mut K,
    kind: &'static str,
    task: Task,
) -> Result<(usize, End, usize, End, Option<i64>), KindFault> {
    let spec = match spec(alloc, kind) {
        Ok(spec) => spec,
        Err(NoMemory) => return Err(KindFault::NoMemory),
    };
    let mut verticle = kinds.make(&spec)?;
    let (first, started) = acts_at(alloc, &mut verticle, Task::Start(CONTEXT));
    let (then, ended) = acts_at(alloc, &mut verticle, task);
    let state = match verticle.tell() {
        Ok(state) => state,
        Err(NoMemory) => return Err(KindFault::NoMemory),
    };
    Ok((first, started, then, ended, state.list().first().copied()))
}

// Whether each kind that works at an address does so.
fn workers_play(alloc: Global, kinds: &mut HostKinds) -> Result<bool, KindFault> {
    let echo = played(alloc, kinds, "echo", request(alloc))?;
    let counter = played(alloc, kinds, "counter", request(alloc))?;
    let relay = played(alloc, kinds, "relay", request(alloc))?;
    let silent = played(alloc, kinds, "silent", request(alloc))?;
    Ok(
        echo == (1, End::Done, 1, End::Done, Some(0))
            && counter == (1, End::Done, 1, End::Done, Some(1))
            && relay == (1, End::Done, 1, End::Done, Some(2))
            && silent == (1, End::Done, 0, End::Done, Some(7)),
    )
}

// Whether each kind whose start takes longer, or fails, does so.
fn starters_play(alloc: Global, kinds: &mut HostKinds) -> Result<bool, KindFault> {
    let deployed = Task::DeployEnd {
        deployment: DeploymentId(EntryNo(2)),
        result: DoneResult::Ok,
    };
    let caller = played(alloc, kinds, "caller", reply(alloc))?;
    let parent = played(alloc, kinds, "parent", deployed)?;
    let failer = played(alloc, kinds, "failer", request(alloc))?;
    Ok(
        caller == (1, End::Later, 1, End::Done, Some(4))
            && parent == (1, End::Later, 1, End::Done, Some(5))
            && failer == (0, End::Fail(1), 0, End::Done, Some(9)),
    )
}

#[test]
fn workers_react(rt: HostRuntime) -> Result<(), Fail> {
    let mut kinds = HostKinds::new(rt.alloc());
    let play = workers_play(rt.alloc(), &mut kinds)?;
    assert!(rt; play);
    Ok(())
}

#[test]
fn starters_react(rt: HostRuntime) -> Result<(), Fail> {
    let mut kinds = HostKinds::new(rt.alloc());
    let play = starters_play(rt.alloc(), &mut kinds)?;
    assert!(rt; play);
    Ok(())
}

// Whether no verticle is made of this kind, since there is none of its name.
fn is_unknown(alloc: Global, kind: &'static str) -> bool {
    let mut kinds = HostKinds::new(alloc);
    match spec(alloc, kind) {
        Ok(spec) => matches!(kinds.make(&spec), Err(KindFault::NoKind)),
        Err(NoMemory) => false,
    }
}

#[test]
fn a_kind_is_not_there(rt: HostRuntime) {
    let unknown = is_unknown(rt.alloc(), "nobody");
    assert!(rt; unknown);
}

// The state of a silent verticle.
fn silent_state(alloc: Global) -> Result<Numbers, NoMemory> {
    let spec = spec(alloc, "silent")?;
    match HostKinds::new(alloc).make(&spec) {
        Ok(silent) => silent.tell(),
        Err(_) => Err(NoMemory),
    }
}

#[test]
fn a_state_is_told(rt: HostRuntime) -> Result<(), Fail> {
    let state = silent_state(rt.alloc())?;
    assert!(rt; state.list() == [7, 1, 115, 1, 115, 0].as_slice());
    Ok(())
}
