use std::test::Fail;
use vx_data::{ConsumerId, EntryNo, MessageId, NoMemory, PassNo};
use vx_message::{Given, Owner};
use vx_request::{GivenOut, Leaver, OpenRequest, Requests};

const ASKER: Owner = Owner::Pass(PassNo(0));

const RECEIVER: ConsumerId = ConsumerId(EntryNo(0));

const FIRST: MessageId = MessageId(EntryNo(1));

const SECOND: MessageId = MessageId(EntryNo(2));

// A request that waits.
fn asked(id: MessageId, receiver: Option<ConsumerId>) -> OpenRequest {
    OpenRequest {
        id,
        asker: ASKER,
        receiver,
        home: None,
    }
}

// Opens one request, ends another that nobody heard, and says whether the first ends once.
fn end_once(requests: &mut Requests) -> Result<bool, NoMemory> {
    requests.reserve()?;
    requests.open(asked(FIRST, None))?;
    requests.end_unheard(SECOND, EntryNo(2))?;
    Ok(
        requests.asker(FIRST) == Some(ASKER)
            && requests.settle(FIRST, EntryNo(3)) == Some(ASKER)
            && requests.settle(FIRST, EntryNo(4)).is_none()
            && requests.settled(FIRST) == Some(EntryNo(3))
            && requests.settled(SECOND) == Some(EntryNo(2)),
    )
}

// Opens two requests, of which the first is given out, and says whether the other alone is lost.
fn lose_the_other(requests: &mut Requests, given: &mut GivenOut) -> Result<bool, NoMemory> {
    requests.open(asked(FIRST, Some(RECEIVER)))?;
    requests.open(asked(SECOND, Some(RECEIVER)))?;
    given.reserve(1)?;
    given.give(Given {
        id: FIRST,
        receiver: None,
        request: true,
    });
    requests.end_with(Leaver::Consumer(RECEIVER), given, EntryNo(5));
    Ok(
        given.given(FIRST).is_some()
            && requests.settled(FIRST).is_none()
            && requests.settled(SECOND) == Some(EntryNo(5)),
    )
}

#[test]
fn a_request_ends_once(rt: HostRuntime) -> Result<(), Fail> {
    let mut requests = Requests::new(rt.alloc());
    let ended = end_once(&mut requests)?;
    assert!(rt; ended && requests.waiting().is_empty());
    Ok(())
}

#[test]
fn a_request_that_was_given_out_is_not_lost(rt: HostRuntime) -> Result<(), Fail> {
    let mut requests = Requests::new(rt.alloc());
    let mut given = GivenOut::new(rt.alloc());
    let lost = lose_the_other(&mut requests, &mut given)?;
    assert!(rt; lost && requests.waiting().len() == 1);
    Ok(())
}
