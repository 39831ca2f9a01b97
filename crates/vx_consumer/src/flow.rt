ghost use Rattle.std.specs.Prelude.{◌≡◌, ◌+◌, ◌<◌, ◌^◌};
ghost use Rattle.vx_consumer.specs.Flows.{arrival, fresh, counted, stopped, resumed, fetched, has_room, freed, room_less, room_more};

use std::marker::Model;

/// What becomes of a message that reaches a consumer.
#[derive(Clone, Copy, PartialEq, Eq)]
pub enum Arrive {
    /// It may be taken.
    Ready,
    /// It waits until there is room.
    Held,
    /// The buffer is full.
    Lost,
}

/// How many more messages may be made ready for a consumer, how many are held for it, and how many may be. (Vert.x core
/// API, `MessageConsumer.pause`, `resume`, `fetch` and `setMaxBufferedMessages`.)
#[derive(Drop)]
pub struct Flow {
    limit: u32,
    /// None: without bound.
    room: Option<u128>,
    held: u64,
}

impl Model for Flow {
    ghost use Rattle.std.specs.Prelude.{◌<◌, ◌^◌};
    ghost use Rattle.vx_consumer.specs.Flows.{Counted};

    ghost Value = { Counted };

    ghost view = { λ flow. record { limit = flow.limit; room = flow.room; held = flow.held } };

    ghost invariant = { λ flow. flow.limit < 2 ^ 32 };
}

impl Flow {
    /// The flow of a consumer that was never paused. At most `limit` messages are held for it as they arrive.
    pub fn new(limit: u32) -> Flow
        ensures { result ≡ fresh limit }
    {
        Flow {
            limit,
            room: None,
            held: 0,
        }
    }

    /// How many messages are held.
    pub fn held(&self) -> u64
        ensures { result ≡ self.now.held }
    {
        self.held
    }

    /// What would become of a message that arrives now: ready where there is room and none is held, else held where
    /// fewer than the limit are held, else lost.
    pub fn next_arrival(&self) -> Arrive
        ensures { result ≡ arrival self.now.limit self.now.room self.now.held }
    {
        if self.has_room() && self.held == 0 {
            Arrive::Ready
        } else if self.held < u64::from(self.limit) {
            Arrive::Held
        } else {
            Arrive::Lost
        }
    }

    /// A message arrives.
    pub fn arrive(&mut self) -> Arrive
        ensures arrives { result ≡ arrival self.old.limit self.old.room self.old.held }
        ensures counted { self.new ≡ counted result self.old }
    {
        let arrive = self.next_arrival();
        match arrive {
            Arrive::Ready => self.lessen(1),
            Arrive::Held => self.held += 1,
            Arrive::Lost => {}
        }
        arrive
    }

    /// Holds these messages too, which were ready and not taken, and leaves no room.
    pub fn pause(&mut self, waiting: u64)
        requires { self.old.held + waiting < 2 ^ 64 }
        ensures { self.new ≡ stopped waiting self.old }
    {
        self.room = Some(0);
        self.held += waiting;
    }

    /// Makes room without bound. The answer is how many held messages become ready: all.
    pub fn resume(&mut self) -> u64
        ensures freed { result ≡ self.old.held }
        ensures resumed { self.new ≡ resumed self.old }
    {
        let count = self.held;
        self.room = None;
        self.held = 0;
        count
    }

    /// How many held messages would become ready if there were room for so many more.
    pub fn freed_by(&self, count: u32) -> u64
        ensures { result ≡ freed (room_more count self.now.room) self.now.held }
    {
        match self.room {
            None => self.held,
            Some(room) => {
                let room = room.saturating_add(u128::from(count));
                if room < u128::from(self.held) {
                    room as u64
                } else {
                    self.held
                }
            }
        }
    }

    /// Makes room for so many more messages. The answer is how many held messages become ready. A room stands still at
    /// 2^128 - 1.
    pub fn fetch(&mut self, count: u32) -> u64
        ensures freed { result ≡ freed (room_more count self.old.room) self.old.held }
        ensures fetched { self.new ≡ fetched count self.old }
    {
        let freed = self.freed_by(count);
        if let Some(room) = self.room {
            self.room = Some(room.saturating_add(u128::from(count)));
        }
        self.lessen(freed);
        self.held -= freed;
        freed
    }

    fn has_room(&self) -> bool
        ensures { result ≡ has_room self.now.room }
    {
        match self.room {
            None => true,
            Some(room) => 0 < room,
        }
    }

    fn lessen(&mut self, count: u64)
        ensures { self.new ≡ record self.old { room = room_less count self.old.room } }
    {
        if let Some(room) = self.room {
            self.room = Some(room.saturating_sub(u128::from(count)));
        }
    }
}
