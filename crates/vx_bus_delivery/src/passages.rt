//! What becomes of messages at the codecs and the rules.
ghost use Rattle.std.specs.Prelude.{◌≡◌, ◌≤◌, length, IfOk};
ghost use Rattle.std.specs.Option.{option_and_then};
ghost use Rattle.vx_data.specs.Bodies.{tree_depth};
ghost use Rattle.vx_data.specs.HeaderLists.{header_bytes};
ghost use Rattle.vx_message.specs.declared.rules.Side.TheVariants as sides;
ghost use Rattle.vx_bus_store.specs.Stores.{message_in, coded_in, passed_in};
ghost use Rattle.vx_bus_delivery.specs.Passages.{passage_of};

use vx_bus_store::Bus;
use vx_data::{Body, EntryNo, MessageId, NoMemory, Text};
use vx_message::{Message, Options, Side};
use vx_rules::{Through, transform};

/// What becomes of a message at the rules.
#[derive(Drop)]
pub enum Passage {
    /// A rule stops it as it is sent.
    Unsent,
    /// A rule stops it as it reaches a consumer.
    Unreceived,
    /// The message as the rules leave it.
    Arrives(Message),
}

/// The body as the named codec leaves it: an equal one where none is named.
pub fn coded(bus: &Bus, body: &Body, options: &Options) -> Result<Body, NoMemory>
    requires { tree_depth body.now ≤ 100 }
    ensures { IfOk result (λ made. made ≡ coded_in bus.now.codecs options.now.codec body.now) }
{
    match &options.codec {
        Some(name) => match bus.form(name) {
            Some(form) => transform(bus.alloc(), form, body),
            None => body.copy(bus.alloc()),
        },
        None => body.copy(bus.alloc()),
    }
}

/// The message that an entry sends, and what becomes of it at the rules.
pub fn passage_for(
    bus: &Bus,
    at: EntryNo,
    address: &Text,
    body: &Body,
    options: &Options,
    request: bool,
    publish: bool,
) -> Result<Passage, NoMemory>
    requires deep { tree_depth body.now ≤ 100 }
    requires pairs { length options.now.headers ≤ 1024 }
    requires bytes { header_bytes options.now.headers ≤ 65536 }
    ensures { IfOk result (λ passage. let message = message_in bus.now at address.now body.now options.now request publish in passage ≡ passage_of (passed_in bus.now sides.Out message) (option_and_then (passed_in bus.now sides.In) (passed_in bus.now sides.Out message))) }
{
    let alloc = bus.alloc();
    let message = Message {
        id: MessageId(at),
        address: address.copy(alloc)?,
        headers: options.headers.copy(alloc)?,
        body: coded(bus, body, options)?,
        request,
        publish,
    };
    match bus.past(Side::Out, message)? {
        Through::Stopped => Ok(Passage::Unsent),
        Through::Passed(message) => match bus.past(Side::In, message)? {
            Through::Stopped => Ok(Passage::Unreceived),
            Through::Passed(message) => Ok(Passage::Arrives(message)),
        },
    }
}
