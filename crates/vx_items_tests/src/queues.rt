ghost use Rattle.std.specs.Prelude.{◌≡◌, ◌≤◌, false, [], ◌∷◌, IfOk};

use std::alloc::Global;
use std::test::Fail;
use vx_data::{ContextId, EntryNo, NoMemory, TimerId};
use vx_message::{Item, ItemKind, Lane, Mode};
use vx_queues::{Queues, Waiting, Which};

// Two queues of one lane, number 0, and room for two tasks.
fn two_queues(alloc: Global) -> Result<Queues, NoMemory>
    ensures queues { IfOk result (λ made. made.queues ≡ record { lane = 0; busy = false } ∷ record { lane = 0; busy = false } ∷ []) }
    ensures lanes { IfOk result (λ made. made.lanes ≡ 1) }
    ensures waiting { IfOk result (λ made. made.waiting ≡ []) }
    ensures room { IfOk result (λ made. 2 ≤ made.room) }
{
    let mut queues = Queues::new(alloc);
    let lane = queues.add_lane()?;
    queues.add(lane)?;
    queues.add(lane)?;
    queues.reserve(2)?;
    Ok(queues)
}

// A task that an entry made ready, in a queue.
fn task(entry: u64, queue: usize) -> Waiting
    ensures entry { result.task.entry.0 ≡ entry }
    ensures queue { result.queue ≡ queue }
{
    let context = ContextId {
        entry: EntryNo(0),
        instance: 0,
    };
    Waiting {
        queue,
        task: Item {
            entry: EntryNo(entry),
            place: 0,
            context,
            lane: Lane::Pool,
            mode: Mode::Handler,
            kind: ItemKind::Fire(TimerId(EntryNo(0))),
        },
    }
}

// Puts a task into either queue and says whether they are next in the order of putting, a busy queue not, and nothing once
// the tasks of a queue are left out.
fn go_in_turn(queues: &mut Queues) -> bool
    requires queues { queues.old.queues ≡ record { lane = 0; busy = false } ∷ record { lane = 0; busy = false } ∷ [] }
    requires lanes { queues.old.lanes ≡ 1 }
    requires waiting { queues.old.waiting ≡ [] }
    requires room { 2 ≤ queues.old.room }
{
    queues.put(task(1, 1));
    queues.put(task(2, 0));
    let first = queues.next(0) == Some(1);
    let taken = queues.take(1).task.entry == EntryNo(1);
    let second = queues.next(0) == Some(0);
    queues.free(1);
    queues.leave_out(0, Which::All);
    first && taken && second && queues.next(0).is_none()
}

#[test]
fn queues_take_turns(rt: HostRuntime) -> Result<(), Fail> {
    let mut queues = two_queues(rt.alloc())?;
    let good = go_in_turn(&mut queues);
    assert!(rt; good);
    Ok(())
}
