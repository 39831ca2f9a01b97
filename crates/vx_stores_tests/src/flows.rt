use vx_consumer::{Arrive, Flow};

// Whether a paused flow holds two messages and loses the third, and lets one go at a time.
fn holds_its_limit(flow: &mut Flow) -> bool {
    flow.arrive() == Arrive::Held
        && flow.arrive() == Arrive::Held
        && flow.next_arrival() == Arrive::Lost
        && flow.arrive() == Arrive::Lost
        && flow.freed_by(1) == 1
        && flow.fetch(1) == 1
        && flow.resume() == 1
}

// Whether a flow that holds three gives all to a fetch of five, and has room for two more.
fn gives_all(flow: &mut Flow) -> bool {
    flow.held() == 3
        && flow.arrive() == Arrive::Lost
        && flow.fetch(5) == 3
        && flow.arrive() == Arrive::Ready
        && flow.arrive() == Arrive::Ready
        && flow.arrive() == Arrive::Held
}

#[test]
fn a_paused_consumer_holds_as_many_as_its_limit(rt: HostRuntime) {
    let mut flow = Flow::new(2);
    let first = flow.arrive();
    flow.pause(0);
    assert!(rt; first == Arrive::Ready && holds_its_limit(&mut flow) && flow.held() == 0);
}

#[test]
fn messages_that_were_ready_are_held_past_the_limit(rt: HostRuntime) {
    let mut flow = Flow::new(2);
    flow.pause(3);
    assert!(rt; gives_all(&mut flow));
}
