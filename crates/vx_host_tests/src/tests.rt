ghost use Rattle.std.specs.Prelude.{◌≡◌, true, IfSome};
ghost use Rattle.vx_call.specs.Built.{is_stored};
ghost use Rattle.vx_call.specs.Plain.{is_plain};
ghost use Rattle.vx_turn.specs.Passes.{place, place_of};

use std::alloc::Global;
use std::sync::Wait;
use std::test::Fail;
use vx_call::{Call, End, Lane, Options, Refusal, Reply, Task, To, Unmade};
use vx_data::{Body, BodyView, ContextId, EntryNo, PassNo, Text};
use vx_host::{Host, Look, Pass, Totals};
use vx_hub::{Back, Taken};
use vx_kinds::HostVerticle;

const CONTEXT: ContextId = ContextId {
    entry: EntryNo(0),
    instance: 0,
};

const SENDS: i64 = 100;

fn register() -> Call
    ensures plain { is_plain result ≡ true }
    ensures stored { is_stored result ≡ true }
{
    Call::Register {
        context: CONTEXT,
        address: Text::constant("a"),
        limit: 1000,
    }
}

fn send(alloc: Global, number: i64) -> Call
    ensures plain { is_plain result ≡ true }
    ensures stored { is_stored result ≡ true }
{
    Call::Send {
        address: Text::constant("a"),
        body: Body::int(number),
        options: Options::none(alloc),
    }
}

// Whether a context was made, a consumer was registered, or a message was sent to one.
fn is_made(answer: Result<Reply, Unmade>) -> bool {
    matches!(
        &answer,
        Ok(Reply::Context(_) | Reply::Consumer(_) | Reply::Sent(To::Consumer(_)))
    )
}

fn make<R: Wait>(
    rt: &R,
    host: &Host<HostVerticle>,
    pass: Pass<HostVerticle>,
    call: Call,
) -> (Pass<HostVerticle>, bool)
    requires place { place_of pass ≡ place host.now.shared }
    requires plain { is_plain call ≡ true }
    requires stored { is_stored call ≡ true }
    ensures { place_of result.0 ≡ place_of pass }
{
    let applied = host.apply(rt, pass, call);
    (applied.pass, is_made(applied.result))
}

// Makes a context that has a consumer, and a second pass, whose number is 1.
fn prepared<R: Wait>(
    rt: &R,
    host: &Host<HostVerticle>,
    pass: Pass<HostVerticle>,
) -> Option<(Pass<HostVerticle>, Pass<HostVerticle>)>
    requires { place_of pass ≡ place host.now.shared }
    ensures one { IfSome result (λ two. place_of two.0 ≡ place host.now.shared) }
    ensures two { IfSome result (λ two. place_of two.1 ≡ place host.now.shared) }
{
    let (pass, context) = make(rt, host, pass, Call::NewContext);
    let (pass, consumer) = make(rt, host, pass, register());
    match host.split(rt, pass) {
        (one, Ok(two)) if context && consumer && two.number() == PassNo(1) => Some((one, two)),
        _ => None,
    }
}

// Sends the numbers from `first` on, and gives the pass back where each was sent to the consumer.
fn send_many<R: Wait + AllocGlobal>(
    rt: &R,
    host: &Host<HostVerticle>,
    mut pass: Pass<HostVerticle>,
    first: i64,
) -> Option<Pass<HostVerticle>>
    requires { place_of pass ≡ place host.now.shared }
    ensures { IfSome result (λ after. place_of after ≡ place_of pass) }
{
    let mut all_sent = true;
    for number in 0..SENDS {
        let (after, sent) = make(
            rt,
            host,
            pass,
            send(rt.alloc(), first.saturating_add(number)),
        );
        pass = after;
        all_sent &= sent;
    }
    all_sent.then_some(pass)
}

// Sends by one pass and then by the other, and joins them.
fn both<R: Wait + AllocGlobal>(
    rt: &R,
    host: &Host<HostVerticle>,
    one: Pass<HostVerticle>,
    two: Pass<HostVerticle>,
) -> Option<Pass<HostVerticle>>
    requires one { place_of one ≡ place host.now.shared }
    requires two { place_of two ≡ place host.now.shared }
    ensures { IfSome result (λ after. place_of after ≡ place_of one) }
{
    match (send_many(rt, host, one, 0), send_many(rt, host, two, SENDS)) {
        (Some(one), Some(two)) => Some(host.join(one, two)),
        _ => None,
    }
}

fn number_in(reply: &Reply) -> Option<i64> {
    match reply {
        Reply::Task(
            Task::Deliver {
                consumer: _,
                message,
            },
        ) => match message.body.view() {
            BodyView::Int(number) => Some(number),
            _ => None,
        },
        _ => None,
    }
}

// Takes a task and ends it, and answers the number of its message.
fn take_number<R: Wait>(
    rt: &R,
    host: &Host<HostVerticle>,
    pass: Pass<HostVerticle>,
) -> (Pass<HostVerticle>, Option<i64>)
    requires { place_of pass ≡ place host.now.shared }
    ensures { place_of result.0 ≡ place_of pass }
{
    let (
        pass,
        Taken {
            reply,
            verticle,
            ..
        },
    ) = host.take(rt, pass, Lane::Own(CONTEXT));
    let number = number_in(&reply);
    match &reply {
        Reply::Task(_) => {
            let back = Back {
                verticle,
                end: End::Done,
            };
            let (pass, ended) = host.finish(rt, pass, back);
            (pass, if ended.is_ok() { number } else { None })
        }
        _ => (pass, None),
    }
}

// Takes the tasks of both passes, and answers how many of each came in the order in which they were sent.
fn take_all<R: Wait>(
    rt: &R,
    host: &Host<HostVerticle>,
    mut pass: Pass<HostVerticle>,
) -> (Pass<HostVerticle>, (i64, i64))
    requires { place_of pass ≡ place host.now.shared }
    ensures { place_of result.0 ≡ place_of pass }
{
    let mut first: i64 = 0;
    let mut second: i64 = 0;
    for _ in 0..2 * SENDS {
        let (after, number) = take_number(rt, host, pass);
        pass = after;
        if first < SENDS && number == Some(first) {
            first = first.saturating_add(1);
        } else if number == Some(second.saturating_add(SENDS)) {
            second = second.saturating_add(1);
        }
    }
    (pass, (first, second))
}

fn totals(messages: u64, deliveries: u64) -> Totals {
    Totals {
        deployments: 0,
        messages,
        deliveries,
        frames: 0,
    }
}

// What 100 sends of each of two passes come to: the length of the history, the totals before anything is taken, how many of
// each pass's messages are taken in its order, and the totals then.
fn sent_by_both<R: Wait + AllocGlobal>(
    rt: &R,
    host: &Host<HostVerticle>,
    pass: Pass<HostVerticle>,
) -> Option<(u64, Totals, (i64, i64), Totals)>
    requires { place_of pass ≡ place host.now.shared }
{
    let (one, two) = prepared(rt, host, pass)?;
    let mut pass = both(rt, host, one, two)?;
    let length = host.front(&mut pass);
    let (pass, sent) = host.totals(rt, pass);
    let (pass, in_order) = take_all(rt, host, pass);
    let (_, taken) = host.totals(rt, pass);
    Some((length, sent, in_order, taken))
}

#[test]
fn two_passes_of_100_sends(rt: HostRuntime) -> Result<(), Fail> {
    let (host, pass) = Host::open(rt.alloc())?;
    let came_to = sent_by_both(&rt, &host, pass);
    assert!(rt; came_to == Some((203, totals(200, 0), (SENDS, SENDS), totals(200, 200))));
    Ok(())
}

// Makes a call where no other pass has its turn.
fn is_made_at_once(host: &Host<HostVerticle>, pass: Pass<HostVerticle>, call: Call) -> bool
    requires place { place_of pass ≡ place host.now.shared }
    requires plain { is_plain call ≡ true }
    requires stored { is_stored call ≡ true }
{
    match host.try_apply(pass, call) {
        Ok(applied) => is_made(applied.result),
        Err(busy) => {
            busy.call.let_go();
            false
        }
    }
}

// Whether a Take of a lane that is not there is refused.
fn misses<R: Wait>(rt: &R, host: &Host<HostVerticle>, pass: Pass<HostVerticle>) -> bool
    requires { place_of pass ≡ place host.now.shared }
{
    let lane = Lane::Own(ContextId {
        entry: EntryNo(1),
        instance: 0,
    });
    let (_, taken) = host.take(rt, pass, lane);
    matches!(&taken.reply, Reply::Refused(Refusal::NoLane))
}

// What looks find once another pass has sent a number: a message that waits, with the number as it is taken, and nothing
// then; no request is due.
fn looks<R: Wait + AllocGlobal>(
    rt: &R,
    host: &Host<HostVerticle>,
    pass: Pass<HostVerticle>,
) -> Option<(Look, Option<i64>, Look, Option<u64>)>
    requires { place_of pass ≡ place host.now.shared }
{
    let lane = Lane::Own(CONTEXT);
    let (mut one, two) = prepared(rt, host, pass)?;
    if !is_made_at_once(host, two, send(rt.alloc(), 7)) {
        return None;
    }
    host.await_change(rt, &mut one);
    let (one, before) = host.look(rt, one, lane);
    let (one, number) = take_number(rt, host, one);
    let (one, after) = host.look(rt, one, lane);
    let (one, due) = host.look_due(rt, one);
    misses(rt, host, one).then_some((before, number, after, due))
}

#[test]
fn looks_find_what_waits(rt: HostRuntime) -> Result<(), Fail> {
    let (host, pass) = Host::open(rt.alloc())?;
    let found = looks(&rt, &host, pass);
    assert!(rt; found == Some((Look::Ready, Some(7), Look::Idle, None)));
    Ok(())
}

#[test]
fn totals_are_one_line(rt: HostRuntime) -> Result<(), Fail> {
    let mut line = Vec::new(rt.alloc());
    line.extend_from_slice(b"> ")?;
    totals(20, 300).write(&mut line)?;
    let expected = b"> deployments 0 messages 20 deliveries 300 frames 0\n";
    assert!(rt; line.as_slice() == expected.as_slice());
    Ok(())
}
