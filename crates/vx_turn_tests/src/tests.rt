ghost use Rattle.std.specs.Prelude.{◌≡◌, IfSome};
ghost use Rattle.vx_turn.specs.Passes.{place, place_of};

use std::alloc::Global;
use std::sync::Wait;
use std::test::Fail;
use std::time::Duration;
use vx_data::PassNo;
use vx_tally::{Plain, Tally, both, bump, meet, try_bump, twin, wake};
use vx_turn::{Busy, Pass, Shared};

// A tally with two passes.
fn opened<R: Wait>(
    rt: &R,
    alloc: Global,
) -> Option<(Shared<Tally<Plain>>, Pass<Tally<Plain>>, Pass<Tally<Plain>>)>
    ensures one { IfSome result (λ opened. place_of opened.1 ≡ place opened.0) }
    ensures two { IfSome result (λ opened. place_of opened.2 ≡ place opened.0) }
{
    let Ok((shared, one)) = Shared::open(alloc, Tally::new()) else {
        return None;
    };
    let (one, Ok(two)) = twin(rt, &shared, one) else {
        return None;
    };
    Some((shared, one, two))
}

#[test]
fn two_threads_of_100_calls(rt: HostRuntime) -> Result<(), Fail> {
    let (shared, one, two) = opened(&rt, rt.alloc()).ok_or("not opened")?;
    let new = two.number();
    let (mut pass, first, second) = both(&rt, &shared, one, two, 100);
    let front = shared.front(&mut pass);
    let stays = pass.number();
    let (_pass, sum) = bump(&rt, &shared, pass, 5, Plain(0));
    assert!(rt;
        new == PassNo(1)
            && stays == PassNo(0)
            && (first, second, front) == (100, 100, 201)
            && sum == Some(9905)
    );
    Ok(())
}

#[test]
fn busy_while_another_pass_has_the_turn(rt: HostRuntime) -> Result<(), Fail> {
    let (shared, one, two) = opened(&rt, rt.alloc()).ok_or("not opened")?;
    let (_one, Err(busy)) = meet(&rt, &shared, one, two, Plain(0)) else {
        return Err("it took a turn".into());
    };
    let Busy {
        pass,
        serving,
        ticket,
    } = busy;
    let Ok((_two, sum)) = try_bump(&shared, pass, 7, Plain(0)) else {
        return Err("it is busy".into());
    };
    assert!(rt; (serving, ticket) == (1, 2) && sum == Some(7));
    Ok(())
}

#[test]
fn sleepers_wake(rt: HostRuntime) -> Result<(), Fail> {
    let (shared, one, two) = opened(&rt, rt.alloc()).ok_or("not opened")?;
    let mut pass = wake(&rt, &shared, one, two, Duration::from_millis(20));
    assert_eq!(rt; shared.front(&mut pass), 4);
    Ok(())
}
