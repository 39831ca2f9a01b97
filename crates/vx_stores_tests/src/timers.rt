use std::test::Fail;
use vx_data::{EntryNo, Moment, NoMemory};
use vx_timer::Timers;

// Sets a timer once at 30 ms, one every 10 ms, and one once at 10 ms.
fn set_three(timers: &mut Timers) -> Result<(), NoMemory> {
    timers.set(EntryNo(1), 30, None)?;
    timers.set(EntryNo(2), 10, Some(10))?;
    timers.set(EntryNo(3), 10, None)
}

// Whether those fire at 35 ms in the order of their moments and ids, and the periodic one is due again at 40 ms.
fn fire_in_order(timers: &mut Timers) -> bool {
    timers.next_due() == Some(10)
        && timers.due(Moment::at(35)) == Some((10, EntryNo(2)))
        && timers.due(Moment::at(35)) == Some((10, EntryNo(3)))
        && timers.due(Moment::at(35)) == Some((30, EntryNo(1)))
        && timers.due(Moment::at(35)).is_none()
        && timers.next_due() == Some(40)
}

#[test]
fn what_is_due_first_fires_first(rt: HostRuntime) -> Result<(), Fail> {
    let mut timers = Timers::new(rt.alloc());
    set_three(&mut timers)?;
    let fired = fire_in_order(&mut timers);
    let cancelled = timers.cancel(EntryNo(2)) && !timers.cancel(EntryNo(2));
    assert!(rt; fired && cancelled && timers.count() == 0);
    Ok(())
}
