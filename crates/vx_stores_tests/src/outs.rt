use std::test::Fail;
use vx_data::{ConnId, EntryNo, NoMemory, Text};
use vx_message::OutFrame;
use vx_outs::Outs;

const FIRST: ConnId = ConnId(EntryNo(1));

const SECOND: ConnId = ConnId(EntryNo(2));

// Adds a frame, if it may wait there, and says whether it does.
fn send(outs: &mut Outs, conn: ConnId, frame: OutFrame) -> Result<bool, NoMemory> {
    outs.reserve(1)?;
    if outs.is_there(conn) && !outs.is_full(conn) {
        outs.add(conn, frame);
        return Ok(true);
    }
    Ok(false)
}

// Opens two connections, and sends two frames to the first and one to the second.
fn open_both(outs: &mut Outs) -> Result<bool, NoMemory> {
    outs.open(FIRST)?;
    outs.open(SECOND)?;
    let pongs = send(outs, FIRST, OutFrame::Pong)? && send(outs, SECOND, OutFrame::Pong)?;
    Ok(pongs && send(outs, FIRST, OutFrame::Err(Text::constant("bad_json")))?)
}

fn takes_pong(outs: &mut Outs, conn: ConnId) -> bool {
    match outs.take(conn) {
        Some(OutFrame::Pong) => true,
        _ => false,
    }
}

// Whether the first connection's frames come in order, also behind its closing.
fn take_in_order(outs: &mut Outs) -> bool {
    let first = outs.waiting(FIRST) == 2 && takes_pong(outs, FIRST);
    outs.close(FIRST, EntryNo(5));
    outs.close(FIRST, EntryNo(6));
    let second = outs.waiting(FIRST) == 1 && !takes_pong(outs, FIRST);
    first && second && outs.take(FIRST).is_none() && outs.closed(FIRST) == Some(EntryNo(5))
}

#[test]
fn frames_wait_in_order(rt: HostRuntime) -> Result<(), Fail> {
    let mut outs = Outs::new(rt.alloc());
    let sent = open_both(&mut outs)?;
    let in_order = take_in_order(&mut outs);
    let other = outs.closed(SECOND).is_none()
        && !outs.is_full(SECOND)
        && takes_pong(&mut outs, SECOND);
    assert!(rt; sent && in_order && other && outs.is_there(SECOND));
    Ok(())
}
