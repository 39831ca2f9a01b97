//! What is counted of the history, entry by entry.
ghost use Rattle.std.specs.Prelude.{◌≡◌, ◌<◌, ◌^◌, ◌&&◌};
ghost use Rattle.vx_call.specs.declared.history.Deed.TheVariants as deeds;
ghost use Rattle.vx_call.specs.History.{is_accepted};
ghost use Rattle.vx_call.specs.Summary as summary;
ghost use Rattle.vx_hub.specs.Counts.{one_more};

use std::marker::Model;
use vx_call::{Call, Reply, Task};

/// How many entries there are, how many of them made a message, and how many handed one to a consumer.
#[derive(Drop)]
pub(crate) struct Counts {
    entries: u64,
    messages: u64,
    deliveries: u64,
}

impl Model for Counts {
    ghost use Rattle.std.specs.Prelude.{◌≤◌};
    ghost use Rattle.vx_hub.specs.Counts.{Counted};

    ghost Value = { Counted };

    ghost view = { λ a. record { entries = a.entries; messages = a.messages; deliveries = a.deliveries } };

    ghost invariant = { λ a. (a.messages ≤ a.entries) × (a.deliveries ≤ a.entries) };
}

impl Counts {
    pub(crate) fn new() -> Counts
        ensures { result ≡ record { entries = 0; messages = 0; deliveries = 0 } }
    {
        Counts {
            entries: 0,
            messages: 0,
            deliveries: 0,
        }
    }

    pub(crate) fn entries(&self) -> u64
        ensures { result ≡ self.now.entries }
    {
        self.entries
    }

    pub(crate) fn messages(&self) -> u64
        ensures { result ≡ self.now.messages }
    {
        self.messages
    }

    pub(crate) fn deliveries(&self) -> u64
        ensures { result ≡ self.now.deliveries }
    {
        self.deliveries
    }

    /// Counts one more entry, and whether it made a message, and whether it handed one to a consumer.
    pub(crate) fn add(&mut self, made: bool, delivered: bool)
        requires { self.old.entries < 2 ^ 48 }
        ensures { self.new ≡ one_more self.old made delivered }
    {
        self.entries += 1;
        self.messages += u64::from(made);
        self.deliveries += u64::from(delivered);
    }
}

/// Whether a call that is no frame makes a message, where it is accepted.
pub(crate) fn makes_message(call: &Call) -> bool
    ensures { result ≡ summary.makes_message call.now deeds.Nothing }
{
    matches!(
        call,
        Call::Send { .. } | Call::Publish { .. } | Call::Request { .. } | Call::ReplyRequest { .. }
    )
}

/// Whether a call has done what it does where it is accepted, by its reply.
pub(crate) fn has_done(does: bool, reply: &Reply) -> bool
    ensures { result ≡ (is_accepted reply.now && does) }
{
    !matches!(reply, Reply::Refused(_)) && does
}

/// Whether the reply hands a message to a consumer.
pub(crate) fn delivers(reply: &Reply) -> bool
    ensures { result ≡ summary.delivers reply.now }
{
    matches!(reply, Reply::Task(Task::Deliver { .. }))
}
