//! A shop, as a verticle.
ghost use Rattle.std.specs.Prelude.{◌≡◌};
ghost use Rattle.first_verticle.specs.Shops as shops;
ghost use Rattle.first_verticle.specs.Shops.{Reacts, Told, kept};

use std::alloc::Global;
use vx_data::{Body, MessageId, NoMemory, Numbers, Text};
use vx_message::Options;
use vx_verticle::{Act, ActResult, Acts, End, Event, NoOnce, PlainAct, Task, Verticle};

/// A shop that sells pieces of one kind: a request to the address `shop` buys one. It is replied to with how many are left,
/// or fails with the code 1 where none is left.
#[derive(Drop)]
pub struct Shop {
    left: u32,
    alloc: Global,
}

impl Shop {
    /// A shop with so many pieces.
    pub fn new(alloc: Global, left: u32) -> Shop
        ensures { result.left ≡ left }
    {
        Shop { left, alloc }
    }

    /// Sells a piece, or says that none is left.
    fn sell(&mut self, message: MessageId) -> PlainAct
        ensures { record { left = self.new.left; act = Some result } ≡ shops.sells self.old.left message }
    {
        if self.left == 0 {
            return PlainAct::Fail {
                message,
                code: 1,
                text: Text::constant("sold out"),
            };
        }
        self.left -= 1;
        PlainAct::Reply {
            message,
            body: Body::int(i64::from(self.left)),
            options: Options::none(self.alloc),
        }
    }

    /// What is to be done for a task.
    fn react(&mut self, task: &Task) -> Option<PlainAct>
        ensures { record { left = self.new.left; act = result } ≡ shops.due self.old.left task.now }
    {
        match task {
            Task::Start(_) => Some(PlainAct::Register {
                address: Text::constant("shop"),
                limit: 1000,
            }),
            Task::Deliver {
                consumer: _,
                message,
            } if message.request => Some(self.sell(message.id)),
            _ => None,
        }
    }
}

impl Verticle for Shop {
    type Rule = NoOnce;

    ghost state = { λ shop. kept shop.left };

    ghost reacts = { Reacts };

    ghost told = { Told };

    fn handle(&mut self, event: &Event, acts: &mut Acts<NoOnce>) -> End {
        let Some(act) = self.react(&event.task) else {
            return End::Done;
        };
        match acts.push(Act::Plain(act)) {
            Ok(()) => End::Done,
            Err(_) => End::NoMemory,
        }
    }

    fn outcome(&mut self, _act_no: u32, _answer: &ActResult) {}

    fn tell(&self) -> Result<Numbers, NoMemory> {
        Numbers::new(self.alloc, &[i64::from(self.left)])
    }
}
