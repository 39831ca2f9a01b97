//! The codecs and the rules of the bus.
ghost use Rattle.std.specs.Prelude.{◌≡◌, ◌+◌, ◌<◌, ◌≤◌, not, None, [], ◌∷◌, ◌++◌, length, filter, find, is_some, IfOk, IfErr, OnOk, OnErr};
ghost use Rattle.std.specs.Option.{option_map};
ghost use Rattle.vx_data.specs.HeaderLists.{header_bytes};
ghost use Rattle.vx_message.specs.declared.rules.Codec.{Codec};
ghost use Rattle.vx_message.specs.Codecs.{is_codec};
ghost use Rattle.vx_message.specs.Rules.{is_rule, rules_of, verdict_bytes};
ghost use Rattle.vx_rules.specs.Stores.{passed};
ghost use Rattle.vx_bus_store.specs.Limits.{GrowsWithinLimits};
ghost use Rattle.vx_bus_store.specs.Stores.{passed_in};

use crate::bus::Bus;
use vx_data::{CodecId, NoMemory, RuleId, Text};
use vx_message::{CodecForm, Condition, MAX_ADDED_BYTES, MAX_RULES, Message, Side, Verdict};
use vx_rules::Through;

impl Bus {
    /// The codec of this name, by the entry that added it.
    pub fn codec(&self, name: &Text) -> Option<CodecId>
        ensures { result ≡ option_map (λ (codec : Codec). codec.id) (find (is_codec name.now) self.now.codecs) }
    {
        self.codecs.find(name).map(|found| found.0)
    }

    /// The form of the codec of this name.
    pub fn form(&self, name: &Text) -> Option<&CodecForm>
        ensures { option_map (λ form. form.now) result ≡ option_map (λ (codec : Codec). codec.form) (find (is_codec name.now) self.now.codecs) }
    {
        self.codecs.find(name).map(|found| found.1)
    }

    /// How many codecs are there.
    pub fn codec_count(&self) -> usize
        ensures { result ≡ length self.now.codecs }
    {
        self.codecs.len()
    }

    /// Adds a codec whose name is free. Without memory its name and form come back.
    pub fn add_codec(
        &mut self,
        id: CodecId,
        name: Text,
        form: CodecForm,
    ) -> Result<(), (Text, CodecForm)>
        requires { find (is_codec name) self.old.codecs ≡ None }
        ensures added { OnOk result (self.new ≡ record self.old { codecs = self.old.codecs ++ record { id = id; name = name; form = form } ∷ [] }) }
        ensures err { OnErr result (self.new ≡ self.old) }
        ensures back { IfErr result (λ given_back. given_back ≡ (name, form)) }
    {
        if self.codecs.reserve().is_err() {
            return Err((name, form));
        }
        self.codecs.add(id, name, form);
        Ok(())
    }

    /// Removes the codec of a name.
    pub fn remove_codec(&mut self, name: &Text)
        ensures { self.new ≡ record self.old { codecs = filter (λ codec. not (is_codec name.now codec)) self.old.codecs } }
    {
        self.codecs.remove(name);
    }

    /// Whether a rule is there.
    pub fn has_rule(&self, id: RuleId) -> bool
        ensures { result ≡ is_some (find (is_rule id) self.now.rules) }
    {
        self.rules.has(id)
    }

    /// How many rules of a side are there.
    pub fn rule_count(&self, side: Side) -> usize
        ensures { result ≡ length (rules_of side self.now.rules) }
    {
        self.rules.count(side)
    }

    /// Adds a rule. Without memory its condition and its verdict come back.
    pub fn add_rule(
        &mut self,
        id: RuleId,
        side: Side,
        condition: Condition,
        verdict: Verdict,
    ) -> Result<(), (Condition, Verdict)>
        requires few { length (rules_of side self.old.rules) < MAX_RULES }
        requires small { verdict_bytes verdict ≤ MAX_ADDED_BYTES }
        ensures added { OnOk result (self.new ≡ record self.old { rules = self.old.rules ++ record { id = id; side = side; condition = condition; verdict = verdict } ∷ [] }) }
        ensures err { OnErr result (self.new ≡ self.old) }
        ensures back { IfErr result (λ given_back. given_back ≡ (condition, verdict)) }
    {
        if self.rules.reserve().is_err() {
            return Err((condition, verdict));
        }
        self.rules.add(id, side, condition, verdict);
        Ok(())
    }

    /// Removes a rule.
    pub fn remove_rule(&mut self, id: RuleId)
        ensures { self.new ≡ record self.old { rules = filter (λ rule. not (is_rule id rule)) self.old.rules } }
    {
        self.rules.remove(id);
    }

    /// The message behind the rules of a side, or that one stops it. The message has at most 1,088 headers, with 131,072 bytes
    /// of names and values, so that it has room for what the rules add.
    pub fn past(&self, side: Side, message: Message) -> Result<Through, NoMemory>
        requires pairs { length message.headers ≤ 1088 }
        requires bytes { header_bytes message.headers ≤ 131072 }
        ensures through { IfOk result (λ end. passed end ≡ passed_in self.now side message) }
        ensures grown { IfOk result (GrowsWithinLimits message) }
    {
        match self.rules.pass_through(self.alloc(), side, message) {
            Ok(through) => Ok(through),
            Err((_, fault)) => Err(fault),
        }
    }
}
