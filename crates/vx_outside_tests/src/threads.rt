ghost use Rattle.std.specs.Prelude.{◌≡◌};

use std::test::Fail;
use std::thread::{Promise, Threads};
use vx_threads::{PickySpawner, Spawner, ThreadSpawner, start};

// The promise of this number.
struct Gives(u64);

impl Drop for Gives {
    fn drop(self) {
        let Gives(_number) = self;
    }
}

impl Promise<u64> for Gives {
    ghost kept_by = { λ promise number. number ≡ promise.0 };
}

// Has a number made on a thread, or here where none was started, and says whether one was.
fn make<R: Threads, P: Spawner>(rt: &R, spawner: &mut P, number: u64) -> (u64, bool)
    ensures { result.0 ≡ number }
{
    match start(spawner, rt, Gives(number), move || number) {
        Ok(running) => (running.join(rt), true),
        Err(work) => (work(), false),
    }
}

#[test]
fn work_is_done_on_a_thread_or_comes_back(rt: HostRuntime) -> Result<(), Fail> {
    let mut threads = ThreadSpawner::new();
    let mut picky = PickySpawner::new(vec![in rt.alloc(); 1]?);
    let there = make(&rt, &mut threads, 7) == (7, true);
    let first = make(&rt, &mut picky, 8) == (8, true);
    let second = make(&rt, &mut picky, 9) == (9, false);
    assert!(rt; there && first && second && make(&rt, &mut picky, 10) == (10, true));
    Ok(())
}
