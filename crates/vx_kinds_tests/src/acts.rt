ghost use Rattle.std.specs.Prelude.{◌≡◌};

use std::alloc::Global;
use std::test::Fail;
use vx_data::{ContextId, EntryNo, NoMemory, Numbers};
use vx_kinds::HostRule;
use vx_verticle::{
    Act, ActFault, ActResult, Acts, End, Event, Once, OnceEnd, OnceInput, PlainAct, Task, Verticle,
};

const CONTEXT: ContextId = ContextId {
    entry: EntryNo(0),
    instance: 0,
};

// A verticle with an act too many.
#[derive(Drop)]
struct Flood {
    refused: Option<ActFault>,
    alloc: Global,
}

impl Verticle for Flood {
    type Rule = HostRule;

    ghost use Rattle.std.specs.Prelude.{◌≡◌, []};

    ghost state = { λ flood. [] };

    ghost reacts = { λ state event later acts end. later ≡ state };

    ghost told = { λ state act_no answer later. later ≡ state };

    fn handle(&mut self, _event: &Event, acts: &mut Acts<HostRule>) -> End {
        for _ in 0..1025 {
            if let Err(refused) = acts.push(Act::Plain(PlainAct::NewPromise)) {
                self.refused = Some(refused.why);
            }
        }
        End::Done
    }

    fn outcome(&mut self, _act_no: u32, _answer: &ActResult) {}

    fn tell(&self) -> Result<Numbers, NoMemory> {
        Numbers::new(self.alloc, &[])
    }
}

// How many acts a verticle has as it starts.
fn acts_at_start<V: Verticle>(alloc: Global, verticle: &mut V) -> usize {
    let event = Event {
        context: CONTEXT,
        task: Task::Start(CONTEXT),
    };
    let mut acts = Acts::new(alloc);
    let _end = verticle.handle(&event, &mut acts);
    acts.into_items().len()
}

#[test]
fn a_handler_has_1024_acts(rt: HostRuntime) {
    let alloc = rt.alloc();
    let mut flood = Flood {
        refused: None,
        alloc,
    };
    let count = acts_at_start(alloc, &mut flood);
    assert!(rt; count == 1024 && flood.refused == Some(ActFault::TooMany));
}

// How many acts a handler has that is called once, and how its task ends.
fn called_once(once: Once<HostRule>, input: OnceInput) -> (usize, End) {
    let OnceEnd { acts, end } = once.run(input);
    (acts.into_items().len(), end)
}

#[test]
fn handlers_are_called_once(rt: HostRuntime) -> Result<(), Fail> {
    let alloc = rt.alloc();
    let quiet = Once::new(HostRule::new(alloc, 7, None));
    let loud = Once::new(HostRule::new(alloc, 7, Some(-9)));
    let argument = loud.tell()?;
    let (few, ended) = called_once(quiet, OnceInput::Run);
    let (more, done) = called_once(loud, OnceInput::Job);
    assert!(rt; argument.list() == [7, -9].as_slice());
    assert!(rt; few == 0 && ended == End::Value(7) && more == 1 && done == End::Value(7));
    Ok(())
}
