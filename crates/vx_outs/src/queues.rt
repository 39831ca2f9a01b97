//! Frames in queues, each as an item of one list.

ghost use Rattle.std.specs.Prelude.{◌≡◌, ◌+◌, ◌<◌, ◌≤◌, if◌then◌else◌, [], ◌∷◌, ◌++◌, length, drop, slice_get, slice_index_or, slice_set, is_some, IfOk, OnOk, OnErr};
ghost use Rattle.vx_outs.specs.Queues.{max_waiting};

use std::alloc::Global;
use std::marker::Model;
use vx_data::NoMemory;
use vx_items::{ListId, Store};
use vx_message::OutFrame;

/// Frames in queues, and room for more of them, whichever queue they go to. Contracts see the queues, each as its frames in
/// order, and the room. Only `open` and `reserve` take memory.
#[derive(Drop)]
pub struct Queues {
    frames: Store<OutFrame>,
    // how many frames each queue has
    lengths: Vec<u64>,
}

impl Model for Queues {
    ghost use Rattle.std.specs.Prelude.{◌≡◌, map};
    ghost use Rattle.vx_outs.specs.Queues.{QueueStore, frames_in, length_of};

    ghost Value = { QueueStore };

    ghost use Rattle.std.specs.Coded.{codes};
    ghost use Rattle.vx_data.specs.contracts.body.Body as body;

    ghost coded = { Prim.hlevel (codes, body.the_row.coded) };

    ghost view = { λ q. record { queues = map frames_in q.frames.lists; room = q.frames.room } };

    ghost invariant = { λ q. q.lengths.items ≡ map length_of q.frames.lists };
}

impl Queues {
    /// No queues, and no room. It takes no memory.
    pub fn new(alloc: Global) -> Queues
        ensures { result ≡ record { queues = []; room = 0 } }
    {
        Queues {
            frames: Store::new(alloc),
            lengths: Vec::new(alloc),
        }
    }

    /// Adds an empty queue, and gives its number. `NoMemory` comes where memory runs out, and then all is as before.
    pub fn open(&mut self) -> Result<usize, NoMemory>
        ensures number { IfOk result (λ queue. queue ≡ length self.old.queues) }
        ensures added { OnOk result (self.new.queues ≡ self.old.queues ++ [] ∷ []) }
        ensures without_memory_as_before { OnErr result (self.new.queues ≡ self.old.queues) }
        ensures room { self.new.room ≡ self.old.room }
    {
        self.lengths.reserve(1)?;
        let list = self.frames.list()?;
        self.lengths.push(0).unwrap();
        Ok(list.0)
    }

    /// Makes room for `frames` more frames. Where memory runs out there may be more room than before, but less than was
    /// asked for.
    pub fn reserve(&mut self, frames: u32) -> Result<(), NoMemory>
        ensures same { self.new.queues ≡ self.old.queues }
        ensures kept { self.old.room ≤ self.new.room }
        ensures room { OnOk result (frames ≤ self.new.room) }
    {
        self.frames.reserve(frames)
    }

    /// Adds a frame at the end of a queue. It takes no memory.
    pub fn push(&mut self, queue: usize, frame: OutFrame)
        requires room { 0 < self.old.room }
        requires queue { queue < length self.old.queues }
        requires few { length (slice_index_or self.old.queues queue []) < max_waiting }
        ensures added { self.new.queues ≡ slice_set self.old.queues queue (slice_index_or self.old.queues queue [] ++ frame ∷ []) }
        ensures room { self.new.room + 1 ≡ self.old.room }
    {
        self.frames.add(frame, ListId(queue));
        self.lengths[queue] += 1;
    }

    /// Takes the first frame of a queue, and there is room for one more. It takes no memory.
    pub fn pop(&mut self, queue: usize) -> Option<OutFrame>
        requires { queue < length self.old.queues }
        ensures first { result ≡ slice_get (slice_index_or self.old.queues queue []) 0 }
        ensures left { self.new.queues ≡ slice_set self.old.queues queue (drop 1 (slice_index_or self.old.queues queue [])) }
        ensures room { self.new.room ≡ self.old.room + (if is_some result then 1 else 0) }
    {
        let first = self.frames.first(ListId(queue))?;
        self.lengths[queue] -= 1;
        Some(self.frames.remove(first))
    }

    /// How many frames a queue has.
    pub fn len(&self, queue: usize) -> u64
        requires { queue < length self.now.queues }
        ensures { result ≡ length (slice_index_or self.now.queues queue []) }
    {
        self.lengths[queue]
    }
}
