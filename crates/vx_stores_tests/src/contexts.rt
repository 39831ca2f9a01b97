use std::test::Fail;
use vx_context::Contexts;
use vx_data::{ConsumerId, ContextId, EntryNo, MessageId, NoMemory, PassNo, PoolId, Text};
use vx_message::{Context, Item, ItemKind, Lane, Mode, Pool};

const MAKER: PassNo = PassNo(0);

const CONTEXT: ContextId = ContextId {
    entry: EntryNo(0),
    instance: 0,
};

const CONSUMER: ConsumerId = ConsumerId(EntryNo(1));

const POOL: PoolId = PoolId(EntryNo(5));

const FIRST_WORKER: ContextId = ContextId {
    entry: EntryNo(6),
    instance: 0,
};

const SECOND_WORKER: ContextId = ContextId {
    entry: EntryNo(6),
    instance: 1,
};

fn message(entry: u64) -> ItemKind {
    ItemKind::Deliver(CONSUMER, MessageId(EntryNo(entry)))
}

fn item(entry: u64) -> Item {
    Item {
        entry: EntryNo(entry),
        place: 0,
        context: CONTEXT,
        lane: Lane::Own(CONTEXT),
        mode: Mode::Handler,
        kind: message(entry),
    }
}

fn worker(id: ContextId) -> Context {
    Context {
        id,
        maker: None,
        lane: Lane::Named(POOL),
        jobs: Lane::Named(POOL),
    }
}

// Whether the maker holds a handler of the context.
fn is_held(contexts: &Contexts) -> bool {
    contexts.runs(CONTEXT)
        && !contexts.runs_ordered(CONTEXT)
        && contexts.held_context(MAKER) == Some(CONTEXT)
        && contexts.held_on(Lane::Own(CONTEXT)).is_some()
}

// Adds a context with two tasks, takes the first, and says whether the other waits until that one is finished.
fn take_in_turn(contexts: &mut Contexts) -> Result<bool, NoMemory> {
    contexts.add(Context {
        id: CONTEXT,
        maker: Some(MAKER),
        lane: Lane::Own(CONTEXT),
        jobs: Lane::Pool,
    })?;
    contexts.reserve(2)?;
    contexts.put(EntryNo(2), 0, CONTEXT, message(2));
    contexts.put(EntryNo(3), 0, CONTEXT, message(3));
    let first = contexts.take(0, MAKER, EntryNo(4));
    let waits = is_held(contexts) && contexts.next(Lane::Own(CONTEXT)).is_none();
    contexts.finish(MAKER);
    let comes = contexts.next(Lane::Own(CONTEXT)) == Some(0);
    Ok(first == item(2) && waits && comes)
}

// Adds two workers of a pool of one, with a task each, and says whether the second waits until the first is done.
fn take_by_pool(contexts: &mut Contexts) -> Result<bool, NoMemory> {
    let pool = Pool {
        id: POOL,
        name: Text::constant("w"),
        size: 1,
    };
    if contexts.add_pool(pool).is_err() {
        return Err(NoMemory);
    }
    contexts.add(worker(FIRST_WORKER))?;
    contexts.add(worker(SECOND_WORKER))?;
    contexts.reserve(2)?;
    contexts.put(EntryNo(7), 0, FIRST_WORKER, message(7));
    contexts.put(EntryNo(8), 0, SECOND_WORKER, message(8));
    contexts.take(0, MAKER, EntryNo(9));
    let full = contexts.next(Lane::Named(POOL)).is_none();
    contexts.finish(MAKER);
    let free = contexts.next(Lane::Named(POOL)) == Some(0);
    Ok(contexts.pool_size(POOL) == Some(1) && full && free)
}

#[test]
fn tasks_of_a_context_are_taken_in_turn(rt: HostRuntime) -> Result<(), Fail> {
    let mut contexts = Contexts::new(rt.alloc());
    let taken = take_in_turn(&mut contexts)?;
    contexts.cancel(CONSUMER);
    let none_left = contexts.next(Lane::Own(CONTEXT)).is_none();
    let there = contexts.context(CONTEXT).is_some() && contexts.holding(MAKER).is_none();
    assert!(rt; taken && none_left && there);
    Ok(())
}

#[test]
fn a_pool_runs_as_many_as_it_has_workers(rt: HostRuntime) -> Result<(), Fail> {
    let mut contexts = Contexts::new(rt.alloc());
    let taken = take_by_pool(&mut contexts)?;
    assert!(rt; taken);
    Ok(())
}
