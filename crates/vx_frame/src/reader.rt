//! Frames from a stream of bytes that comes in any pieces.
ghost use Rattle.std.specs.Prelude.{◌≡◌, ◌≤◌, ◌-◌, ◌++◌, [], List, ℕ, IfOk, OnOk, OnErr, length, drop, vec_len};
ghost use Rattle.vx_message.specs.declared.frame.InFrame.{InFrame};
ghost use Rattle.vx_frame.specs.Nexts.{Follows, next_of};
ghost use Rattle.vx_frame.specs.Streams.{HasGiven, IsReading, closes};

use crate::cut::{Cut, PREFIX_LEN, front_of};
use std::alloc::Global;
use std::marker::Model;
use vx_data::NoMemory;
use vx_frame_read::read_frame;
use vx_message::InFrame;

/// What is next on the stream.
#[derive(Drop)]
pub enum Next {
    Frame(InFrame),
    /// Less than a whole frame, of so many bytes. There is more to feed.
    Part(u32),
    /// A frame came behind which no other is read.
    Ended,
}

/// A reader of frames. Contracts see it as the bytes that it holds and has given no frame of, and whether a frame was
/// given behind which no other is read.
#[derive(Drop)]
pub struct FrameReader {
    alloc: Global,
    bytes: Vec<u8>,
    /// The place of the first byte that was not given.
    front: usize,
    ended: bool,
}

impl Model for FrameReader {
    ghost use Rattle.std.specs.Prelude.{◌≤◌, List, ℕ, Bool, drop, vec_len};

    ghost Value = { List ℕ × Bool };

    ghost view = { λ reader. (drop reader.front reader.bytes.items, reader.ended) };

    ghost invariant = { λ reader. reader.front ≤ vec_len reader.bytes };
}

impl FrameReader {
    /// A reader that was fed nothing. It takes no memory.
    pub fn new(alloc: Global) -> FrameReader
        ensures { HasGiven [] [] result }
    {
        FrameReader {
            alloc,
            bytes: Vec::new(alloc),
            front: 0,
            ended: false,
        }
    }

    /// Takes a piece of the stream. `NoMemory` leaves the reader as it was.
    pub fn feed(&mut self, piece: &[u8]) -> Result<(), NoMemory>
        ensures fed { OnOk result ((fed : List ℕ) (given : List InFrame) → HasGiven fed given self.old → HasGiven (fed ++ piece.now) given self.new) }
        ensures unchanged { OnErr result (self.new ≡ self.old) }
    {
        if self.ended {
            return Ok(());
        }
        Ok(self.bytes.extend_from_slice(piece)?)
    }

    /// The next frame of the bytes that were fed, or why there is none. It depends on these bytes alone, not on the pieces
    /// in which they came. `NoMemory` leaves the reader as it was.
    pub fn next(&mut self) -> Result<Next, NoMemory>
        // It gives the frames of the bytes one after another: when it has given all of them, it says so.
        ensures given { IfOk result (λ next. (fed : List ℕ) (given : List InFrame) → HasGiven fed given self.old → Follows fed given next self.new) }
        // Whatever the frames of the bytes are, the next one of these is given.
        ensures alone { IfOk result (λ next. (fed : List ℕ) (given fs : List InFrame) (rest : List ℕ) → HasGiven fed given self.old → IsReading fed fs rest → next ≡ next_of fs rest (length given)) }
        ensures unchanged { OnErr result (self.new ≡ self.old) }
    {
        if self.ended {
            return Ok(Next::Ended);
        }
        let held = self.held();
        match front_of(held) {
            Cut::Part => Ok(Next::Part(held.len() as u32)),
            Cut::Refused(len) => {
                self.ended = true;
                Ok(Next::Frame(InFrame::TooLong(len)))
            }
            Cut::Whole(json) => {
                let frame = read_frame(self.alloc, json)?;
                let len = PREFIX_LEN + json.len();
                self.ended = closes(&frame);
                self.pass(len);
                Ok(Next::Frame(frame))
            }
        }
    }

    /// The bytes that are held and were not given.
    fn held(&self) -> &[u8]
        ensures { result.now ≡ self.now.0 }
    {
        &self.bytes[self.front..]
    }

    /// Moves the front on. Where it has passed half of the bytes, the rest is moved down.
    fn pass(&mut self, count: usize)
        requires { count ≤ length self.old.0 }
        ensures { self.new ≡ (drop count self.old.0, self.old.1) }
    {
        self.front += count;
        if self.front > self.bytes.len() / 2 {
            remove_front(&mut self.bytes, self.front);
            self.front = 0;
        }
    }
}

/// Whether no other frame is read behind it.
fn closes(frame: &InFrame) -> bool
    ensures { result ≡ closes frame.now }
{
    matches!(frame, InFrame::BadJson | InFrame::TooLong(_))
}

fn remove_front(bytes: &mut Vec<u8>, count: usize)
    requires { count ≤ vec_len bytes.old }
    ensures items { bytes.new.items ≡ drop count bytes.old.items }
    ensures len { vec_len bytes.new ≡ vec_len bytes.old - count }
{
    let len = bytes.len();
    bytes.as_mut_slice().copy_within(count..len, 0);
    bytes.truncate(len - count);
}
