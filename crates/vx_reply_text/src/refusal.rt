//! The text of refusals.
ghost use Rattle.std.specs.Prelude.{◌≡◌, ◌++◌, OnOk, IsTrue};
ghost use Rattle.vx_reply_text.specs.Groups as groups;
ghost use Rattle.vx_reply_text.specs.Replies as texts;

use crate::pieces::{write_context, write_number};
use crate::text::append;
use std::alloc::Global;
use vx_call::Refusal;
use vx_data::NoMemory;
use vx_message::Owner;

fn write_not_yours(alloc: Global, owner: Owner, into: &mut Vec<u8>) -> Result<(), NoMemory>
    ensures { OnOk result (into.new.items ≡ into.old.items ++ texts.refusal_text (Refusal.NotYours owner)) }
{
    match owner {
        Owner::Pass(pass) => write_number(alloc, "refused 4 not yours pass", pass.0, into),
        Owner::Context(context) => {
            write_context(alloc, "refused 4 not yours context", context, into)
        }
        Owner::Conn(conn) => {
            write_number(alloc, "refused 4 not yours connection", conn.0.0, into)
        }
    }
}

/// Appends a refusal about promises, servers or connections, or that the history is spent.
fn write_last_refusal(alloc: Global, refusal: Refusal, into: &mut Vec<u8>) -> Result<(), NoMemory>
    requires { IsTrue (groups.is_last refusal) }
    ensures { OnOk result (into.new.items ≡ into.old.items ++ texts.refusal_text refusal) }
{
    match refusal {
        Refusal::NoPromise => append(b"refused 22 no promise", into),
        Refusal::Settled(entry) => write_number(alloc, "refused 23 settled", entry.0, into),
        Refusal::NoServer => append(b"refused 24 no server", into),
        Refusal::NoConnection => append(b"refused 25 no connection", into),
        Refusal::ConnClosed(entry) => {
            write_number(alloc, "refused 26 connection closed", entry.0, into)
        }
        Refusal::Spent => append(b"refused 30 spent", into),
        _ => unreachable!(),
    }
}

/// Appends a refusal about deployments, timers, counts or the hub itself, or one of those of `write_last_refusal`.
fn write_life_refusal(alloc: Global, refusal: Refusal, into: &mut Vec<u8>) -> Result<(), NoMemory>
    requires { IsTrue (groups.is_of_life_or_last refusal) }
    ensures { OnOk result (into.new.items ≡ into.old.items ++ texts.refusal_text refusal) }
{
    match refusal {
        Refusal::NoDeployment => append(b"refused 14 no deployment", into),
        Refusal::Stopping(entry) => write_number(alloc, "refused 15 stopping", entry.0, into),
        Refusal::BadCount => append(b"refused 16 bad count", into),
        Refusal::BadDelay => append(b"refused 17 bad delay", into),
        Refusal::NoTimer => append(b"refused 18 no timer", into),
        Refusal::StillDeployed(deployment) => {
            write_number(alloc, "refused 27 still deployed", deployment.0.0, into)
        }
        Refusal::HostClosed(entry) => write_number(alloc, "refused 28 host closed", entry.0, into),
        Refusal::NotPending => append(b"refused 29 not pending", into),
        _ => write_last_refusal(alloc, refusal, into),
    }
}

/// Appends a refusal about messages and who handles them, or one of those of `write_life_refusal`.
fn write_message_refusal(
    alloc: Global,
    refusal: Refusal,
    into: &mut Vec<u8>,
) -> Result<(), NoMemory>
    requires { IsTrue (groups.is_of_no_lane refusal) }
    ensures { OnOk result (into.new.items ≡ into.old.items ++ texts.refusal_text refusal) }
{
    match refusal {
        Refusal::NoConsumer => append(b"refused 3 no consumer", into),
        Refusal::BadAddress => append(b"refused 9 bad address", into),
        Refusal::TooLarge(limit) => {
            write_number(alloc, "refused 10 too large", u64::from(limit), into)
        }
        Refusal::NoMessage => append(b"refused 11 no message", into),
        Refusal::NotRequest => append(b"refused 12 not request", into),
        Refusal::Late(entry) => write_number(alloc, "refused 13 late", entry.0, into),
        Refusal::NoCodec => append(b"refused 19 no codec", into),
        Refusal::CodecTaken(entry) => {
            write_number(alloc, "refused 20 codec taken", entry.0, into)
        }
        Refusal::NoRule => append(b"refused 21 no rule", into),
        _ => write_life_refusal(alloc, refusal, into),
    }
}

/// Appends a refusal. Those about contexts, their lanes and tasks come first, the others in the functions above.
pub(crate) fn write_refusal(
    alloc: Global,
    refusal: Refusal,
    into: &mut Vec<u8>,
) -> Result<(), NoMemory>
    ensures { OnOk result (into.new.items ≡ into.old.items ++ texts.refusal_text refusal) }
{
    match refusal {
        Refusal::NoContext => append(b"refused 1 no context", into),
        Refusal::ContextClosed(entry) => {
            write_number(alloc, "refused 2 context closed", entry.0, into)
        }
        Refusal::NotYours(owner) => write_not_yours(alloc, owner, into),
        Refusal::NotHolding => append(b"refused 5 not holding", into),
        Refusal::Holding(entry) => write_number(alloc, "refused 6 holding", entry.0, into),
        Refusal::LaneHeld(pass) => write_number(alloc, "refused 7 lane held", pass.0, into),
        Refusal::NoLane => append(b"refused 8 no lane", into),
        Refusal::PoolTaken(entry) => write_number(alloc, "refused 31 pool taken", entry.0, into),
        Refusal::NoPool => append(b"refused 32 no pool", into),
        _ => write_message_refusal(alloc, refusal, into),
    }
}
