//! What happened in a history, in numbers: to count it is no entry of the history.
ghost use Rattle.std.specs.Prelude.{◌≡◌, ◌++◌, List, OnOk, OnErr};
ghost use Rattle.vx_call.specs.declared.history.Traced.{Traced};
ghost use Rattle.vx_hub.specs.Stands.{StandsFor};
ghost use Rattle.vx_hub.specs.Looks.{totals_of, summary_line};

use crate::hub::Hub;
use vx_data::NoMemory;
use vx_verticle::Verticle;

/// How much was done in a history. A refused call counts for none of them.
#[derive(Clone, Copy, PartialEq, Eq)]
pub struct Totals {
    /// Deployments that were made, those that are gone included.
    pub deployments: u64,
    /// Messages that were sent, published or asked, among them the requests that reply to a request.
    pub messages: u64,
    /// Messages that a Take handed to a consumer.
    pub deliveries: u64,
    /// Frames that were taken out of a connection: 0 so far.
    pub frames: u64,
}

impl Totals {
    /// Appends the line `deployments D messages M deliveries V frames F` and a newline. `NoMemory` leaves the list as it was.
    pub fn write(&self, into: &mut Vec<u8>) -> Result<(), NoMemory>
        ensures written { OnOk result (into.new.items ≡ into.old.items ++ summary_line self.now) }
        ensures unchanged { OnErr result (into.new.items ≡ into.old.items) }
    {
        let alloc = *into.allocator();
        let Totals {
            deployments,
            messages,
            deliveries,
            frames,
        } = *self;
        let line = format!(in alloc;
            "deployments {deployments} messages {messages} deliveries {deliveries} frames {frames}\n"
        )?;
        into.extend_from_slice(line.as_bytes())?;
        Ok(())
    }
}

impl<V: Verticle> Hub<V> {
    /// How much was done in the history.
    pub fn totals(&self) -> Totals
        ensures { (history : List Traced) → StandsFor self.entry.now history → result ≡ totals_of history }
    {
        Totals {
            deployments: self.life.deployment_count() as u64,
            messages: self.counts.messages(),
            deliveries: self.counts.deliveries(),
            frames: 0,
        }
    }
}
