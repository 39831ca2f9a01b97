//! Handlers that have one act.
ghost use Rattle.std.specs.Prelude.{◌≡◌, ◌≤◌, ◌∷◌, [], OnOk, OnErr};
ghost use Rattle.vx_verticle.specs.declared.acts.Act.TheVariants as acting;
ghost use Rattle.vx_kinds.specs.Kinds.{registers, replies, ends_start};
ghost use Rattle.vx_kinds.specs.Kinds as kinds;

use crate::rule::HostRule;
use crate::settings::Settings;
use std::alloc::Global;
use vx_data::{Body, MessageId, NoMemory};
use vx_message::{DoneResult, Options};
use vx_verticle::{Act, Acts, PlainAct};

/// How many messages are held for a consumer of a host's verticle.
const LIMIT: u32 = 1000;

/// Adds the only act of a handler.
pub(crate) fn only(acts: &mut Acts<HostRule>, act: Act<HostRule>) -> Result<(), NoMemory>
    requires { acts.old ≡ [] }
    ensures done { OnOk result (acts.new ≡ act ∷ []) }
    ensures none { OnErr result (acts.new ≡ []) }
{
    match acts.push(act) {
        Ok(()) => Ok(()),
        Err(_) => Err(NoMemory),
    }
}

/// Registers at the verticle's address, as its only act.
pub(crate) fn register(
    alloc: Global,
    settings: &Settings,
    acts: &mut Acts<HostRule>,
) -> Result<(), NoMemory>
    requires { acts.old ≡ [] }
    ensures done { OnOk result (acts.new ≡ registers settings.now ∷ []) }
    ensures none { OnErr result (acts.new ≡ []) }
{
    let address = settings.address.copy(alloc)?;
    let limit = LIMIT;
    only(acts, Act::Plain(PlainAct::Register { address, limit }))
}

/// Replies to a request, as the handler's only act.
pub(crate) fn reply(
    alloc: Global,
    message: MessageId,
    body: Body,
    acts: &mut Acts<HostRule>,
) -> Result<(), NoMemory>
    requires { acts.old ≡ [] }
    ensures done { OnOk result (acts.new ≡ replies message body ∷ []) }
    ensures none { OnErr result (acts.new ≡ []) }
{
    let options = Options::none(alloc);
    only(
        acts,
        Act::Plain(PlainAct::Reply {
            message,
            body,
            options,
        }),
    )
}

/// Ends the verticle's start, as the handler's only act.
pub(crate) fn end_start(ended: DoneResult, acts: &mut Acts<HostRule>) -> Result<(), NoMemory>
    requires { acts.old ≡ [] }
    ensures done { OnOk result (acts.new ≡ ends_start ended ∷ []) }
    ensures none { OnErr result (acts.new ≡ []) }
{
    only(acts, Act::Plain(PlainAct::StartDone(ended)))
}

/// A number up to a limit. Any other counts as 0.
pub(crate) fn up_to(limit: u64, number: i64) -> u64
    ensures value { result ≡ kinds.up_to limit number }
    ensures bound { result ≤ limit }
{
    match u64::try_from(number) {
        Ok(number) if number <= limit => number,
        _ => 0,
    }
}
