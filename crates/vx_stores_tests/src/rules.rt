ghost use Rattle.std.specs.Prelude.{◌≡◌, false, [], OnOk};
ghost use Rattle.vx_data.specs.HeaderLists.{too_many};
ghost use Rattle.vx_message.specs.declared.rules.Side.TheVariants as sides;
ghost use Rattle.vx_message.specs.Rules.{rules_of};
ghost use Rattle.vx_rules.specs.Stores.{additions};

use std::alloc::Global;
use std::test::Fail;
use vx_data::{Body, EntryNo, Headers, MessageId, NoMemory, RuleId, Text};
use vx_message::{Condition, Message, Side, Verdict};
use vx_rules::{Rules, Through};

const STOP: RuleId = RuleId(EntryNo(2));

// On the way out one that stops all; on the way in one that adds a header, and one that stops what goes to `news`.
fn add_rules(rules: &mut Rules) -> Result<(), NoMemory>
    requires { rules.old.rules ≡ [] }
    ensures { OnOk result (too_many (additions (rules_of sides.In rules.new.rules)) ≡ false) }
{
    rules.reserve()?;
    rules.add(RuleId(EntryNo(0)), Side::Out, Condition::Any, Verdict::Stop);
    rules.reserve()?;
    let header = Verdict::Add(Text::constant("h"), Text::constant("v"));
    rules.add(RuleId(EntryNo(1)), Side::In, Condition::Any, header);
    rules.reserve()?;
    rules.add(
        STOP,
        Side::In,
        Condition::At(Text::constant("news")),
        Verdict::Stop,
    );
    Ok(())
}

// A message without headers.
fn message(alloc: Global, address: &'static str) -> Message
    ensures { result.headers ≡ [] }
{
    Message {
        id: MessageId(EntryNo(0)),
        address: Text::constant(address),
        headers: Headers::empty(alloc),
        body: Body::null(),
        request: false,
        publish: false,
    }
}

// How many headers the message has behind the rules of the way in, if it gets through.
fn headers_behind(alloc: Global, rules: &Rules, message: Message) -> Result<Option<usize>, NoMemory>
    requires headers { message.headers ≡ [] }
    requires room { too_many (additions (rules_of sides.In rules.now.rules)) ≡ false }
{
    match rules.pass_through(alloc, Side::In, message) {
        Ok(Through::Passed(message)) => Ok(Some(message.headers.pairs().len())),
        Ok(Through::Stopped) => Ok(None),
        Err((_, fault)) => Err(fault),
    }
}

// Whether the rule that stops is there, once.
fn removes(rules: &mut Rules) -> bool {
    let counted = rules.count(Side::In) == 2 && rules.count(Side::Out) == 1;
    counted && rules.has(STOP) && rules.remove(STOP) && !rules.remove(STOP)
}

#[test]
fn rules_go_in_order(rt: HostRuntime) -> Result<(), Fail> {
    let alloc = rt.alloc();
    let mut rules = Rules::new(alloc);
    add_rules(&mut rules)?;
    let elsewhere = headers_behind(alloc, &rules, message(alloc, "other"))?;
    let there = headers_behind(alloc, &rules, message(alloc, "news"))?;
    let removed = removes(&mut rules);
    assert!(rt; elsewhere == Some(1) && there.is_none() && removed);
    Ok(())
}
