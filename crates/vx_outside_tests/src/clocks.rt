use std::test::Fail;
use vx_data::Moment;
use vx_outside::{Clock, HostClock, MemClock};

// Rests for 5 ms, and says whether so many have passed, and a rest to a moment that is past ends.
fn passes<C: Clock>(clock: &mut C) -> bool {
    let first = clock.now();
    let due = Moment::at(first.ms() + 5);
    clock.rest(due);
    let second = clock.now();
    clock.rest(first);
    second.ms() >= due.ms() && clock.now().ms() >= second.ms()
}

#[test]
fn time_passes_at_rest(rt: HostRuntime) -> Result<(), Fail> {
    let mut host = HostClock::new(&rt)?;
    let mut memory = MemClock::new(Moment::at(7));
    let passed = passes(&mut host) && passes(&mut memory);
    assert!(rt; passed && memory.now() == Moment::at(12));
    Ok(())
}
