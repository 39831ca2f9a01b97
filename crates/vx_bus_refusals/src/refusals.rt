//! Why calls are refused that name a consumer, a message, a codec or a rule, or that have an address, a body or a number.

ghost use Rattle.std.specs.Prelude.{◌≡◌, ◌<◌, ◌≤◌, List, length, find, nat_lt, None};
ghost use Rattle.std.specs.List.{list_any};
ghost use Rattle.vx_data.specs.declared.ids.PassNo.{PassNo};
ghost use Rattle.vx_message.specs.Codecs.{is_codec};
ghost use Rattle.vx_message.specs.Rules.{rules_of, verdict_bytes};
ghost use Rattle.vx_call.specs.declared.history.Traced.{Traced};
ghost use Rattle.vx_call.specs.Refusals as machine;
ghost use Rattle.vx_call.specs.Rows as rows;
ghost use Rattle.vx_context.specs.Stands.{ContextsStand};
ghost use Rattle.vx_bus_store.specs.Stands.{BusStands};

use vx_bus_store::Bus;
use vx_call::{CodecForm, Options, Refusal, Side, Verdict};
use vx_context::{Contexts, closed, holder_closed, no_context, not_your_context};
use vx_data::{Body, ConsumerId, ContextId, MessageId, PassNo, RuleId, Text};
use vx_message::{MAX_ADDED_BYTES, MAX_RULES, Owner};

/// The longest timeout, in ms.
const MAX_TIMEOUT: u64 = 1_000_000_000_000;

/// The most bytes of a failure's text.
const MAX_FAILURE_TEXT: u32 = 65_536;

/// The most messages that are held for a consumer as they arrive.
const MAX_LIMIT: u32 = 100_000;

/// The most bytes of a body's JSON text.
const MAX_BODY_BYTES: u32 = 1_048_576;

/// The greatest depth of a body that is sent.
const MAX_BODY_DEPTH: u32 = 100;

/// The most headers of a message that is sent.
const MAX_HEADERS: u32 = 1024;

/// The most bytes of their names and values together.
const MAX_HEADER_BYTES: u32 = 65_536;

/// The most keys that a codec names.
const MAX_KEYS: u32 = 64;

/// The most bytes of a key.
const MAX_KEY_BYTES: u32 = 1024;

/// The most codecs.
const MAX_CODECS: u32 = 256;

/// `BadAddress`, where the address does not have 1 to 1,024 bytes.
pub fn bad_address(address: &Text) -> Option<Refusal>
    ensures { result ≡ machine.bad_address address.now }
{
    if address.len() == 0 || address.len() > 1024 {
        Some(Refusal::BadAddress)
    } else {
        None
    }
}

/// `BadDelay`, where the timeout is not 1 to 1,000,000,000,000 ms.
fn bad_delay(timeout: u64) -> Option<Refusal>
    ensures { result ≡ machine.bad_delay timeout }
{
    if timeout == 0 || timeout > MAX_TIMEOUT {
        Some(Refusal::BadDelay)
    } else {
        None
    }
}

/// `BadCount`, where the limit of a consumer is not 1 to 100,000.
fn bad_limit(limit: u32) -> Option<Refusal>
    ensures { result ≡ machine.bad_limit limit }
{
    if limit == 0 || limit > MAX_LIMIT {
        Some(Refusal::BadCount)
    } else {
        None
    }
}

/// `BadCount`, where no message is fetched.
fn bad_fetch(count: u32) -> Option<Refusal>
    ensures { result ≡ machine.bad_fetch count }
{
    if count == 0 {
        Some(Refusal::BadCount)
    } else {
        None
    }
}

/// `TooLarge`, where there is more than the limit.
fn over(limit: u32, amount: u128) -> Option<Refusal>
    ensures { result ≡ machine.over limit amount }
{
    if amount > u128::from(limit) {
        Some(Refusal::TooLarge(limit))
    } else {
        None
    }
}

/// `TooLarge`, where the body's JSON text has more than 1,048,576 bytes, its depth is more than 100, or there are more
/// than 1,024 headers or 65,536 bytes of them.
fn too_large(body: &Body, options: &Options) -> Option<Refusal>
    ensures { result ≡ machine.too_large body.now options.now }
{
    over(MAX_BODY_BYTES, u128::from(body.size()))
        .or(over(MAX_BODY_DEPTH, u128::from(body.depth())))
        .or(over(MAX_HEADERS, options.headers.pairs().len() as u128))
        .or(over(MAX_HEADER_BYTES, options.headers.bytes() as u128))
}

/// `NoCodec`, where no codec has the name.
pub fn no_codec(bus: &Bus, name: &Text) -> Option<Refusal>
    ensures { (history : List Traced) → BusStands bus.now history → result ≡ machine.no_codec history name.now }
{
    match bus.codec(name) {
        Some(_) => None,
        None => Some(Refusal::NoCodec),
    }
}

/// `NoCodec`, where a codec is named that is not there.
fn no_such_codec(bus: &Bus, options: &Options) -> Option<Refusal>
    ensures { (history : List Traced) → BusStands bus.now history → result ≡ machine.no_such_codec history options.now.codec }
{
    match &options.codec {
        Some(name) => no_codec(bus, name),
        None => None,
    }
}

/// `CodecTaken`, where a codec has the name.
fn codec_taken(bus: &Bus, name: &Text) -> Option<Refusal>
    ensures taken { (history : List Traced) → BusStands bus.now history → result ≡ machine.codec_taken history name.now }
    ensures free { result ≡ None → find (is_codec name.now) bus.now.codecs ≡ None }
{
    bus.codec(name).map(|codec| Refusal::CodecTaken(codec.0))
}

/// The keys that a codec's form names.
fn key_count(form: &CodecForm) -> usize
    ensures { result ≡ length (machine.keys_of form.now) }
{
    match form {
        CodecForm::Copy => 0,
        CodecForm::KeepKeys(keys) => keys.items().len(),
        CodecForm::DropKeys(keys) => keys.items().len(),
        CodecForm::Wrap(_) => 1,
    }
}

/// Whether a key has more than 1,024 bytes.
fn is_long(key: &Text) -> bool
    ensures { result ≡ nat_lt 1024 (length key.now) }
{
    key.len() > MAX_KEY_BYTES as usize
}

/// Whether a key of a codec's form has more than 1,024 bytes.
fn has_long_key(form: &CodecForm) -> bool
    ensures { result ≡ list_any (λ key. nat_lt 1024 (length key)) (machine.keys_of form.now) }
{
    match form {
        CodecForm::Copy => false,
        CodecForm::KeepKeys(keys) => keys.items().iter().any(is_long),
        CodecForm::DropKeys(keys) => keys.items().iter().any(is_long),
        CodecForm::Wrap(key) => is_long(key),
    }
}

/// `TooLarge`, where a key has more than 1,024 bytes.
fn long_key(form: &CodecForm) -> Option<Refusal>
    ensures { result ≡ machine.long_key form.now }
{
    if has_long_key(form) {
        Some(Refusal::TooLarge(MAX_KEY_BYTES))
    } else {
        None
    }
}

/// How many bytes the name and the value have together that a verdict adds.
fn added_bytes(verdict: &Verdict) -> u128
    ensures { result ≡ verdict_bytes verdict.now }
{
    match verdict {
        Verdict::Stop => 0,
        Verdict::Add(name, value) => name.len() as u128 + value.len() as u128,
    }
}

/// `NoRule`, where the rule is not there.
pub fn no_rule(bus: &Bus, id: RuleId) -> Option<Refusal>
    ensures { (history : List Traced) → BusStands bus.now history → result ≡ machine.no_rule history id }
{
    if bus.has_rule(id) {
        None
    } else {
        Some(Refusal::NoRule)
    }
}

fn no_consumer(bus: &Bus, id: ConsumerId) -> Option<Refusal>
    ensures { (history : List Traced) → BusStands bus.now history → result ≡ machine.no_consumer history id }
{
    match bus.handler(id) {
        Some(_) => None,
        None => Some(Refusal::NoConsumer),
    }
}

// `NotYours`, of what a context or a connection owns.
fn not_your_owner(contexts: &Contexts, pass: PassNo, owner: Owner) -> Option<Refusal>
    ensures { (history : List Traced) → ContextsStand contexts.now history → result ≡ machine.not_your_owner history pass owner }
{
    match owner {
        Owner::Context(context) => not_your_context(contexts, pass, context),
        Owner::Conn(_) => Some(Refusal::NotYours(owner)),
        Owner::Pass(_) => None,
    }
}

fn not_your_consumer(
    contexts: &Contexts,
    bus: &Bus,
    pass: PassNo,
    id: ConsumerId,
) -> Option<Refusal>
    ensures { (history : List Traced) → ContextsStand contexts.now history → BusStands bus.now history → result ≡ machine.not_your_consumer history pass id }
{
    match bus.handler(id) {
        Some(handler) => not_your_owner(contexts, pass, handler.consumer.owner),
        None => None,
    }
}

fn no_message(bus: &Bus, id: MessageId) -> Option<Refusal>
    ensures { (history : List Traced) → BusStands bus.now history → result ≡ machine.no_message history id }
{
    match bus.given(id) {
        Some(_) => None,
        None => Some(Refusal::NoMessage),
    }
}

fn not_request(bus: &Bus, id: MessageId) -> Option<Refusal>
    ensures { (history : List Traced) → BusStands bus.now history → result ≡ machine.not_request history id }
{
    match bus.given(id) {
        Some(given) if !given.request => Some(Refusal::NotRequest),
        _ => None,
    }
}

fn not_your_receiver(
    contexts: &Contexts,
    pass: PassNo,
    receiver: Option<ContextId>,
) -> Option<Refusal>
    ensures { (history : List Traced) → ContextsStand contexts.now history → result ≡ machine.not_your_receiver history pass receiver }
{
    match receiver {
        Some(context) => not_your_context(contexts, pass, context),
        None => None,
    }
}

fn not_your_message(contexts: &Contexts, bus: &Bus, pass: PassNo, id: MessageId) -> Option<Refusal>
    ensures { (history : List Traced) → ContextsStand contexts.now history → BusStands bus.now history → result ≡ machine.not_your_message history pass id }
{
    match bus.given(id) {
        Some(given) => not_your_receiver(contexts, pass, given.receiver),
        None => None,
    }
}

fn late(bus: &Bus, id: MessageId) -> Option<Refusal>
    ensures { (history : List Traced) → BusStands bus.now history → result ≡ machine.late history id }
{
    match bus.settled(id) {
        Some(entry) => Some(Refusal::Late(entry)),
        None => None,
    }
}

/// Why a Register is refused.
pub fn register_refusal(
    contexts: &Contexts,
    pass: PassNo,
    context: ContextId,
    address: &Text,
    limit: u32,
) -> Option<Refusal>
    ensures { (history : List Traced) → ContextsStand contexts.now history → result ≡ rows.register_refusal history pass context address.now limit }
{
    no_context(contexts, context)
        .or(not_your_context(contexts, pass, context))
        .or(closed(contexts, pass, context))
        .or(bad_address(address))
        .or(bad_limit(limit))
}

/// Why an Unregister, a Pause or a Resume is refused.
pub fn consumer_refusal(
    contexts: &Contexts,
    bus: &Bus,
    pass: PassNo,
    id: ConsumerId,
) -> Option<Refusal>
    ensures { (history : List Traced) → ContextsStand contexts.now history → BusStands bus.now history → result ≡ rows.consumer_refusal history pass id }
{
    no_consumer(bus, id)
        .or(not_your_consumer(contexts, bus, pass, id))
        .or(holder_closed(contexts, pass))
}

/// Why a Fetch is refused.
pub fn fetch_refusal(
    contexts: &Contexts,
    bus: &Bus,
    pass: PassNo,
    id: ConsumerId,
    count: u32,
) -> Option<Refusal>
    ensures { (history : List Traced) → ContextsStand contexts.now history → BusStands bus.now history → result ≡ rows.fetch_refusal history pass id count }
{
    consumer_refusal(contexts, bus, pass, id).or(bad_fetch(count))
}

/// Why a Send or a Publish is refused.
pub fn send_refusal(
    contexts: &Contexts,
    bus: &Bus,
    pass: PassNo,
    address: &Text,
    body: &Body,
    options: &Options,
) -> Option<Refusal>
    ensures { (history : List Traced) → ContextsStand contexts.now history → BusStands bus.now history → result ≡ rows.send_refusal history pass address.now body.now options.now }
{
    no_such_codec(bus, options)
        .or(holder_closed(contexts, pass))
        .or(bad_address(address))
        .or(too_large(body, options))
}

/// Why a Request is refused.
pub fn request_refusal(
    contexts: &Contexts,
    bus: &Bus,
    pass: PassNo,
    context: ContextId,
    address: &Text,
    body: &Body,
    options: &Options,
    timeout: u64,
) -> Option<Refusal>
    ensures { (history : List Traced) → ContextsStand contexts.now history → BusStands bus.now history → result ≡ rows.request_refusal history pass context address.now body.now options.now timeout }
{
    no_context(contexts, context)
        .or(no_such_codec(bus, options))
        .or(not_your_context(contexts, pass, context))
        .or(closed(contexts, pass, context))
        .or(bad_address(address))
        .or(too_large(body, options))
        .or(bad_delay(timeout))
}

/// Why a Reply is refused.
pub fn reply_refusal(
    contexts: &Contexts,
    bus: &Bus,
    pass: PassNo,
    message: MessageId,
    body: &Body,
    options: &Options,
) -> Option<Refusal>
    ensures { (history : List Traced) → ContextsStand contexts.now history → BusStands bus.now history → result ≡ rows.reply_refusal history pass message body.now options.now }
{
    no_message(bus, message)
        .or(not_request(bus, message))
        .or(no_such_codec(bus, options))
        .or(not_your_message(contexts, bus, pass, message))
        .or(holder_closed(contexts, pass))
        .or(too_large(body, options))
        .or(late(bus, message))
}

/// Why a Fail is refused.
pub fn fail_refusal(
    contexts: &Contexts,
    bus: &Bus,
    pass: PassNo,
    message: MessageId,
    text: &Text,
) -> Option<Refusal>
    ensures { (history : List Traced) → ContextsStand contexts.now history → BusStands bus.now history → result ≡ rows.fail_refusal history pass message text.now }
{
    no_message(bus, message)
        .or(not_request(bus, message))
        .or(not_your_message(contexts, bus, pass, message))
        .or(holder_closed(contexts, pass))
        .or(over(MAX_FAILURE_TEXT, text.len() as u128))
        .or(late(bus, message))
}

/// Why a ReplyRequest is refused.
pub fn reply_request_refusal(
    contexts: &Contexts,
    bus: &Bus,
    pass: PassNo,
    message: MessageId,
    context: ContextId,
    body: &Body,
    options: &Options,
    timeout: u64,
) -> Option<Refusal>
    ensures { (history : List Traced) → ContextsStand contexts.now history → BusStands bus.now history → result ≡ rows.reply_request_refusal history pass message context body.now options.now timeout }
{
    no_message(bus, message)
        .or(not_request(bus, message))
        .or(no_context(contexts, context))
        .or(no_such_codec(bus, options))
        .or(not_your_message(contexts, bus, pass, message))
        .or(not_your_context(contexts, pass, context))
        .or(closed(contexts, pass, context))
        .or(too_large(body, options))
        .or(bad_delay(timeout))
        .or(late(bus, message))
}

/// Why an AddCodec is refused.
pub fn add_codec_refusal(
    contexts: &Contexts,
    bus: &Bus,
    pass: PassNo,
    name: &Text,
    form: &CodecForm,
) -> Option<Refusal>
    ensures refusal { (history : List Traced) → ContextsStand contexts.now history → BusStands bus.now history → result ≡ rows.add_codec_refusal history pass name.now form.now }
    ensures free { result ≡ None → find (is_codec name.now) bus.now.codecs ≡ None }
{
    holder_closed(contexts, pass)
        .or(bad_address(name))
        .or(over(MAX_KEYS, key_count(form) as u128))
        .or(long_key(form))
        .or(codec_taken(bus, name))
        .or(over(MAX_CODECS, bus.codec_count() as u128 + 1))
}

/// Why an AddRule is refused.
pub fn add_rule_refusal(
    contexts: &Contexts,
    bus: &Bus,
    pass: PassNo,
    side: Side,
    verdict: &Verdict,
) -> Option<Refusal>
    ensures refusal { (history : List Traced) → ContextsStand contexts.now history → BusStands bus.now history → result ≡ rows.add_rule_refusal history pass side verdict.now }
    ensures few { result ≡ None → length (rules_of side bus.now.rules) < 64 }
    ensures small { result ≡ None → verdict_bytes verdict.now ≤ 1024 }
{
    holder_closed(contexts, pass)
        .or(over(MAX_ADDED_BYTES, added_bytes(verdict)))
        .or(over(MAX_RULES, bus.rule_count(side) as u128 + 1))
}
