ghost use Rattle.std.specs.Prelude.{◌≡◌, ◌+◌, ◌*◌, ◌<◌, ◌≤◌, not, if◌then◌else◌, false, ℕ, List, [], ◌∷◌, ◌++◌, length, filter, option_map, IfOk, IfErr, IfSome, OnOk, OnErr};
ghost use Rattle.std.specs.List.{list_any};
ghost use Rattle.std.specs.Str.{bytes_eq};
ghost use Rattle.vx_data.specs.HeaderLists.{header_bytes, too_many};
ghost use Rattle.vx_message.specs.Rules.{concerns, is_rule, past, rules_of, through};
ghost use Rattle.vx_rules.specs.Stores.{added_by, additions, bearing, passed, GrowsBy};

use std::alloc::Global;
use std::marker::Model;
use vx_data::{HeaderFault, Headers, NoMemory, RuleId, Text};
use vx_message::{Condition, Message, Rule, Side, Verdict};

/// What became of a message at the rules.
#[derive(Drop)]
pub enum Through {
    /// A rule stopped it.
    Stopped,
    /// The message as the rules left it.
    Passed(Message),
}

/// The rules that are there, in the order of adding. How many there may be, and how much one may add, the caller decides.
/// (Vert.x core API, `EventBus.addInboundInterceptor` and `addOutboundInterceptor`.)
#[derive(Drop)]
pub struct Rules {
    rows: Vec<Rule>,
}

impl Model for Rules {
    ghost use Rattle.std.specs.Prelude.{◌-◌, vec_len, vec_capacity};
    ghost use Rattle.vx_rules.specs.Stores.{RuleStore};

    ghost Value = { RuleStore };

    ghost view = { λ store. record { rules = store.rows.items; room = vec_capacity store.rows - vec_len store.rows } };
}

impl Rules {
    /// No rules. It takes no memory.
    pub fn new(alloc: Global) -> Rules
        ensures { result ≡ record { rules = []; room = 0 } }
    {
        Rules {
            rows: Vec::new(alloc),
        }
    }

    /// Makes room for one more rule. It fails where memory runs out.
    pub fn reserve(&mut self) -> Result<(), NoMemory>
        ensures same { self.new.rules ≡ self.old.rules }
        ensures room { OnOk result (0 < self.new.room) }
        ensures kept { self.old.room ≤ self.new.room }
    {
        self.rows.reserve(1)?;
        Ok(())
    }

    /// Adds a rule behind the others. It takes no memory.
    pub fn add(&mut self, id: RuleId, side: Side, condition: Condition, verdict: Verdict)
        requires { 0 < self.old.room }
        ensures added { self.new.rules ≡ self.old.rules ++ record { id = id; side = side; condition = condition; verdict = verdict } ∷ [] }
        ensures room { self.old.room ≤ self.new.room + 1 }
    {
        let rule = Rule {
            id,
            side,
            condition,
            verdict,
        };
        self.rows.push(rule).unwrap();
    }

    /// Removes a rule, and says whether it was there.
    pub fn remove(&mut self, id: RuleId) -> bool
        ensures found { result ≡ list_any (is_rule id) self.old.rules }
        ensures left { self.new.rules ≡ filter (λ rule. not (is_rule id rule)) self.old.rules }
        ensures room { self.old.room ≤ self.new.room }
    {
        let found = self.has(id);
        self.rows.retain(|rule| id != rule.id);
        found
    }

    /// Whether a rule is there.
    pub fn has(&self, id: RuleId) -> bool
        ensures { result ≡ list_any (is_rule id) self.now.rules }
    {
        self.rows.iter().any(|rule| id == rule.id)
    }

    /// How many rules of a side are there.
    pub fn count(&self, side: Side) -> usize
        ensures { result ≡ length (rules_of side self.now.rules) }
    {
        self.rows.iter().filter(|rule| side == rule.side).count()
    }

    /// Tries the rules of a side on a message, in the order of adding, each on the message as those before it left it. The
    /// message's headers have room for all that the side's rules add: together at most 1,152 pairs, and 196,608 bytes of
    /// names and values. Where memory runs out the message comes back as it was.
    pub fn pass_through(
        &self,
        alloc: Global,
        side: Side,
        message: Message,
    ) -> Result<Through, (Message, NoMemory)>
        requires { too_many (message.headers ++ additions (rules_of side self.now.rules)) ≡ false }
        ensures through { IfOk result (λ end. passed end ≡ through (rules_of side self.now.rules) message) }
        ensures grown { IfOk result (GrowsBy (additions (rules_of side self.now.rules)) message) }
        ensures back { IfErr result (λ back. back.0 ≡ message) }
    {
        match headers_past(alloc, &self.rows, side, &message) {
            Ok(Some(headers)) => Ok(Through::Passed(message.with_headers(headers))),
            Ok(None) => Ok(Through::Stopped),
            Err(fault) => Err((message, fault)),
        }
    }
}

// The headers of a message behind the rules, if it gets through.
fn headers_past(
    alloc: Global,
    rules: &[Rule],
    side: Side,
    message: &Message,
) -> Result<Option<Headers>, NoMemory>
    requires { too_many (message.now.headers ++ additions (rules_of side rules.now)) ≡ false }
    ensures through { IfOk result (λ headers. option_map (bearing message.now) headers ≡ through (rules_of side rules.now) message.now) }
    ensures pairs { IfOk result (λ headers. IfSome headers (λ grown. length grown ≤ length message.now.headers + length (additions (rules_of side rules.now)))) }
    ensures bytes { IfOk result (λ headers. IfSome headers (λ grown. header_bytes grown ≤ header_bytes message.now.headers + header_bytes (additions (rules_of side rules.now)))) }
{
    let mut headers = message.headers.copy(alloc)?;
    for rule in rules {
        if side == rule.side && !goes_on(alloc, rule, message, &mut headers)? {
            return Ok(None);
        }
    }
    Ok(Some(headers))
}

// Whether a message with these headers gets past a rule, which may add a pair to them.
fn goes_on(
    alloc: Global,
    rule: &Rule,
    message: &Message,
    headers: &mut Headers,
) -> Result<bool, NoMemory>
    requires { too_many (headers.old ++ added_by rule.now.verdict) ≡ false }
    ensures past { IfOk result (λ goes_on. past rule.now (bearing message.now headers.old) ≡ (if goes_on then Some (bearing message.now headers.new) else None)) }
    ensures pairs { length headers.new ≤ length headers.old + length (added_by rule.now.verdict) }
    ensures bytes { header_bytes headers.new ≤ header_bytes headers.old + header_bytes (added_by rule.now.verdict) }
{
    if !concerns(&rule.condition, message, headers) {
        return Ok(true);
    }
    match &rule.verdict {
        Verdict::Stop => Ok(false),
        Verdict::Add(name, value) => {
            add_header(alloc, headers, name, value)?;
            Ok(true)
        }
    }
}

// Whether a rule with this condition is for a message with these headers.
fn concerns(condition: &Condition, message: &Message, headers: &Headers) -> bool
    ensures { result ≡ concerns condition.now (bearing message.now headers.now) }
{
    match condition {
        Condition::Any => true,
        Condition::At(address) => address.is(&message.address),
        Condition::Has(name) => has_header(headers.pairs(), name),
    }
}

// Whether a header of this name is among these.
fn has_header(headers: &[(Text, Text)], name: &Text) -> bool
    ensures { result ≡ list_any (λ (header : List ℕ × List ℕ). bytes_eq name.now header.0) headers.now }
{
    headers.iter().any(|header| name.is(&header.0))
}

// Adds a pair to headers that have room for it.
fn add_header(
    alloc: Global,
    headers: &mut Headers,
    name: &Text,
    value: &Text,
) -> Result<(), NoMemory>
    requires { too_many (headers.old ++ (name.now, value.now) ∷ []) ≡ false }
    ensures added { OnOk result (headers.new ≡ headers.old ++ (name.now, value.now) ∷ []) }
    ensures unchanged { OnErr result (headers.new ≡ headers.old) }
{
    match headers.add(name.copy(alloc)?, value.copy(alloc)?) {
        Ok(()) => Ok(()),
        Err(refused) => match refused.why {
            HeaderFault::NoMemory => Err(NoMemory),
            HeaderFault::TooMany => unreachable!(),
        },
    }
}
