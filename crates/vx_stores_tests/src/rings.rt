use std::test::Fail;
use vx_data::{ConsumerId, EntryNo, NoMemory, Text};
use vx_ring::Rings;

const FIRST: ConsumerId = ConsumerId(EntryNo(1));

const SECOND: ConsumerId = ConsumerId(EntryNo(2));

// Adds two consumers, and says whether they take turns.
fn take_turns(rings: &mut Rings, address: &Text) -> Result<bool, NoMemory> {
    rings.add(address, FIRST)?;
    rings.add(address, SECOND)?;
    Ok(
        rings.all(address).len() == 2
            && rings.turn(address) == Some(FIRST)
            && rings.choose(address) == Some(FIRST)
            && rings.choose(address) == Some(SECOND)
            && rings.choose(address) == Some(FIRST),
    )
}

// Removes both, and says whether each was there, once.
fn leave(rings: &mut Rings, address: &Text) -> bool {
    rings.remove(address, FIRST)
        && !rings.remove(address, FIRST)
        && rings.remove(address, SECOND)
        && rings.choose(address).is_none()
}

#[test]
fn consumers_take_turns(rt: HostRuntime) -> Result<(), Fail> {
    let address = Text::constant("news");
    let mut rings = Rings::new(rt.alloc());
    let first_time = take_turns(&mut rings, &address)?;
    let left = leave(&mut rings, &address);
    let second_time = take_turns(&mut rings, &address)?;
    assert!(rt; first_time && left && second_time);
    Ok(())
}
