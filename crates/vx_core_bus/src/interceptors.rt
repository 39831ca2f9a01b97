//! Codecs and rules come and go.
ghost use Rattle.std.specs.Prelude.{◌≡◌, List, IfOk, IfErr, OnErr};
ghost use Rattle.vx_call.specs.declared.call.Call.TheVariants as calls;
ghost use Rattle.vx_call.specs.declared.history.Traced.{Traced};
ghost use Rattle.vx_context.specs.Stands.{IsNext};
ghost use Rattle.vx_bus_store.specs.Stands.{StoresStand, Follows};

use vx_bus_refusals::{add_codec_refusal, add_rule_refusal, no_codec, no_rule};
use vx_bus_store::Bus;
use vx_call::{Call, CodecForm, Condition, Reply, Side, Unmade, Verdict};
use vx_context::{Contexts, holder_closed};
use vx_data::{CodecId, EntryNo, PassNo, RuleId, Text};
use vx_timer::Timers;

/// Adds a codec.
pub fn add_codec(
    contexts: &Contexts,
    timers: &Timers,
    bus: &mut Bus,
    at: EntryNo,
    pass: PassNo,
    name: Text,
    form: CodecForm,
) -> Result<Reply, Unmade>
    ensures ok { IfOk result (λ reply. (history : List Traced) → StoresStand contexts.now timers.now bus.old history → IsNext at history → Follows contexts.now timers.now bus.new history pass (Call.AddCodec name form) reply) }
    ensures err { OnErr result (bus.new ≡ bus.old) }
    ensures back { IfErr result (λ unmade. unmade.call ≡ Call.AddCodec name form) }
    ensures requests { bus.new.requests ≡ bus.old.requests }
    ensures consumers { bus.new.consumers ≡ bus.old.consumers }
    ensures room { bus.new.room ≡ bus.old.room }
{
    if let Some(refusal) = add_codec_refusal(contexts, bus, pass, &name, &form) {
        return Ok(Reply::Refused(refusal));
    }
    let id = CodecId(at);
    match bus.add_codec(id, name, form) {
        Ok(()) => Ok(Reply::Codec(id)),
        Err((name, form)) => Err(Unmade {
            call: Call::AddCodec { name, form },
        }),
    }
}

/// Removes a codec. It takes no memory.
pub fn remove_codec(
    contexts: &Contexts,
    timers: &Timers,
    bus: &mut Bus,
    at: EntryNo,
    pass: PassNo,
    name: Text,
) -> Reply
    ensures follows { (history : List Traced) → StoresStand contexts.now timers.now bus.old history → IsNext at history → Follows contexts.now timers.now bus.new history pass (calls.RemoveCodec name) result }
    ensures requests { bus.new.requests ≡ bus.old.requests }
    ensures consumers { bus.new.consumers ≡ bus.old.consumers }
    ensures room { bus.new.room ≡ bus.old.room }
{
    if let Some(refusal) = no_codec(bus, &name).or(holder_closed(contexts, pass)) {
        return Reply::Refused(refusal);
    }
    bus.remove_codec(&name);
    Reply::Done
}

/// Adds a rule.
pub fn add_rule(
    contexts: &Contexts,
    timers: &Timers,
    bus: &mut Bus,
    at: EntryNo,
    pass: PassNo,
    side: Side,
    condition: Condition,
    verdict: Verdict,
) -> Result<Reply, Unmade>
    ensures ok { IfOk result (λ reply. (history : List Traced) → StoresStand contexts.now timers.now bus.old history → IsNext at history → Follows contexts.now timers.now bus.new history pass (Call.AddRule side condition verdict) reply) }
    ensures err { OnErr result (bus.new ≡ bus.old) }
    ensures back { IfErr result (λ unmade. unmade.call ≡ Call.AddRule side condition verdict) }
    ensures requests { bus.new.requests ≡ bus.old.requests }
    ensures consumers { bus.new.consumers ≡ bus.old.consumers }
    ensures room { bus.new.room ≡ bus.old.room }
{
    if let Some(refusal) = add_rule_refusal(contexts, bus, pass, side, &verdict) {
        return Ok(Reply::Refused(refusal));
    }
    let id = RuleId(at);
    match bus.add_rule(id, side, condition, verdict) {
        Ok(()) => Ok(Reply::Rule(id)),
        Err((condition, verdict)) => Err(Unmade {
            call: Call::AddRule {
                side,
                condition,
                verdict,
            },
        }),
    }
}

/// Removes a rule. It takes no memory.
pub fn remove_rule(
    contexts: &Contexts,
    timers: &Timers,
    bus: &mut Bus,
    at: EntryNo,
    pass: PassNo,
    rule: RuleId,
) -> Reply
    ensures follows { (history : List Traced) → StoresStand contexts.now timers.now bus.old history → IsNext at history → Follows contexts.now timers.now bus.new history pass (calls.RemoveRule rule) result }
    ensures requests { bus.new.requests ≡ bus.old.requests }
    ensures consumers { bus.new.consumers ≡ bus.old.consumers }
    ensures room { bus.new.room ≡ bus.old.room }
{
    if let Some(refusal) = no_rule(bus, rule).or(holder_closed(contexts, pass)) {
        return Reply::Refused(refusal);
    }
    bus.remove_rule(rule);
    Reply::Done
}
