ghost use Rattle.std.specs.Prelude.{◌≡◌, ◌+◌, ◌<◌, ◌≤◌, ◌&&◌, ◌||◌, nat_le, if◌then◌else◌, false, true, [], ◌∷◌, ◌++◌, length, drop, slice_get, is_some, Some, None, IfOk, OnOk, OnErr};
ghost use Rattle.std.specs.Option.{option_or};
ghost use Rattle.vx_data.specs.declared.ids.ConnId.{ConnId};
ghost use Rattle.vx_data.specs.Ids.{same_conn};
ghost use Rattle.vx_outs.specs.Queues.{max_waiting};
ghost use Rattle.vx_outs.specs.Outs.{is_there, frames_at, closed_at, conn_at, queue_of, closing_of, frames_of, IsQueued};

use crate::queues::Queues;
use indexmap::IndexMap;
use std::alloc::Global;
use std::marker::Model;
use vx_data::{ConnId, EntryNo, NoMemory};
use vx_message::OutFrame;

/// So many frames may wait on a connection.
pub const MAX_WAITING: u64 = 10_000;

/// A connection: the queue of its frames, and the entry that closed it.
#[derive(Clone, Copy)]
pub struct Conn {
    queue: usize,
    closed: Option<EntryNo>,
}

/// The frames that wait on each connection that was opened, and the entry that closed it, if one did. Contracts see them by
/// connection, and for how many more frames there is room, whichever connection they go to. Only `open` and `reserve` take
/// memory.
#[derive(Drop)]
pub struct Outs {
    conns: IndexMap<u64, Conn>,
    queues: Queues,
}

impl Model for Outs {
    ghost use Rattle.vx_outs.specs.Outs.{OutStore, conns_of, IsQueued};

    ghost Value = { OutStore };

    ghost use Rattle.std.specs.Coded.{codes};
    ghost use Rattle.vx_data.specs.contracts.body.Body as body;

    ghost coded = { Prim.hlevel (codes, body.the_row.coded) };

    ghost view = { λ o. record { conns = conns_of o.conns.entries o.queues.queues; room = o.queues.room } };

    ghost invariant = { λ o. IsQueued o.conns.entries o.queues.queues };
}

impl Outs {
    /// No connections, and no room. It takes no memory.
    pub fn new(alloc: Global) -> Outs
        ensures { result ≡ record { conns = []; room = 0 } }
    {
        Outs {
            conns: IndexMap::new(alloc),
            queues: Queues::new(alloc),
        }
    }

    /// Opens a connection, on which no frames wait. One that is there stays as it is. `NoMemory` comes where memory runs
    /// out, and then all is as before.
    pub fn open(&mut self, conn: ConnId) -> Result<(), NoMemory>
        ensures opened { OnOk result ((other : ConnId) → is_there other self.new.conns ≡ (is_there other self.old.conns || same_conn conn other)) }
        ensures without_memory_as_before { OnErr result ((other : ConnId) → is_there other self.new.conns ≡ is_there other self.old.conns) }
        ensures frames { (other : ConnId) → frames_at other self.new.conns ≡ frames_at other self.old.conns }
        ensures closed { (other : ConnId) → closed_at other self.new.conns ≡ closed_at other self.old.conns }
        ensures room { self.new.room ≡ self.old.room }
    {
        open(&mut self.conns, &mut self.queues, conn)
    }

    /// Makes room for `frames` more frames. Where memory runs out there may be more room than before, but less than was
    /// asked for.
    pub fn reserve(&mut self, frames: u32) -> Result<(), NoMemory>
        ensures same { self.new.conns ≡ self.old.conns }
        ensures kept { self.old.room ≤ self.new.room }
        ensures room { OnOk result (frames ≤ self.new.room) }
    {
        self.queues.reserve(frames)
    }

    /// Adds a frame behind those that wait on a connection. It takes no memory.
    pub fn add(&mut self, conn: ConnId, frame: OutFrame)
        requires room { 0 < self.old.room }
        requires there { is_there conn self.old.conns ≡ true }
        requires few { length (frames_at conn self.old.conns) < max_waiting }
        ensures there { (other : ConnId) → is_there other self.new.conns ≡ is_there other self.old.conns }
        ensures frames { (other : ConnId) → frames_at other self.new.conns ≡ (if same_conn conn other then frames_at other self.old.conns ++ frame ∷ [] else frames_at other self.old.conns) }
        ensures closed { (other : ConnId) → closed_at other self.new.conns ≡ closed_at other self.old.conns }
        ensures room { self.new.room + 1 ≡ self.old.room }
    {
        add(&self.conns, &mut self.queues, conn, frame);
    }

    /// Takes the first frame that waits on a connection, also where the connection is closed, and there is room for one
    /// more. It takes no memory.
    pub fn take(&mut self, conn: ConnId) -> Option<OutFrame>
        ensures first { result ≡ slice_get (frames_at conn self.old.conns) 0 }
        ensures there { (other : ConnId) → is_there other self.new.conns ≡ is_there other self.old.conns }
        ensures frames { (other : ConnId) → frames_at other self.new.conns ≡ (if same_conn conn other then drop 1 (frames_at other self.old.conns) else frames_at other self.old.conns) }
        ensures closed { (other : ConnId) → closed_at other self.new.conns ≡ closed_at other self.old.conns }
        ensures room { self.new.room ≡ self.old.room + (if is_some result then 1 else 0) }
    {
        take(&self.conns, &mut self.queues, conn)
    }

    /// How many frames wait on a connection: none where it isn't there.
    pub fn waiting(&self, conn: ConnId) -> u64
        ensures frames { result ≡ length (frames_at conn self.now.conns) }
        ensures bound { result ≤ max_waiting }
    {
        waiting(&self.conns, &self.queues, conn)
    }

    /// Whether as many frames wait on a connection as may.
    pub fn is_full(&self, conn: ConnId) -> bool
        ensures { result ≡ nat_le max_waiting (length (frames_at conn self.now.conns)) }
    {
        self.waiting(conn) >= MAX_WAITING
    }

    /// Keeps which entry closed a connection. The first one stays, and one that isn't there is not closed. It takes no
    /// memory.
    pub fn close(&mut self, conn: ConnId, at: EntryNo)
        ensures there { (other : ConnId) → is_there other self.new.conns ≡ is_there other self.old.conns }
        ensures frames { (other : ConnId) → frames_at other self.new.conns ≡ frames_at other self.old.conns }
        ensures closed { (other : ConnId) → closed_at other self.new.conns ≡ option_or (closed_at other self.old.conns) (if same_conn conn other && is_there other self.old.conns then Some at else None) }
        ensures room { self.new.room ≡ self.old.room }
    {
        close(&mut self.conns, conn, at);
    }

    /// The entry that closed a connection, if one did.
    pub fn closed(&self, conn: ConnId) -> Option<EntryNo>
        ensures { result ≡ closed_at conn self.now.conns }
    {
        closing(&self.conns, conn)
    }

    /// Whether a connection was opened, closed or not.
    pub fn is_there(&self, conn: ConnId) -> bool
        ensures { result ≡ is_there conn self.now.conns }
    {
        self.conns.contains_key(&conn.0.0)
    }
}

// Opens a connection.
fn open(conns: &mut IndexMap<u64, Conn>, queues: &mut Queues, conn: ConnId) -> Result<(), NoMemory>
    requires { IsQueued conns.old.entries queues.old.queues }
    ensures queued { IsQueued conns.new.entries queues.new.queues }
    ensures opened { OnOk result ((other : ConnId) → is_some (conn_at other conns.new.entries) ≡ (is_some (conn_at other conns.old.entries) || same_conn conn other)) }
    ensures without_memory_as_before { OnErr result ((other : ConnId) → is_some (conn_at other conns.new.entries) ≡ is_some (conn_at other conns.old.entries)) }
    ensures frames { (other : ConnId) → frames_of (conn_at other conns.new.entries) queues.new.queues ≡ frames_of (conn_at other conns.old.entries) queues.old.queues }
    ensures closed { (other : ConnId) → closing_of (conn_at other conns.new.entries) ≡ closing_of (conn_at other conns.old.entries) }
    ensures room { queues.new.room ≡ queues.old.room }
{
    if conns.contains_key(&conn.0.0) {
        return Ok(());
    }
    conns.reserve(1)?;
    let queue = queues.open()?;
    conns
        .insert(
            conn.0.0,
            Conn {
                queue,
                closed: None,
            },
        )
        .unwrap();
    Ok(())
}

// Adds a frame behind those that wait on a connection.
fn add(conns: &IndexMap<u64, Conn>, queues: &mut Queues, conn: ConnId, frame: OutFrame)
    requires room { 0 < queues.old.room }
    requires queued { IsQueued conns.now.entries queues.old.queues }
    requires there { is_some (conn_at conn conns.now.entries) ≡ true }
    requires few { length (frames_of (conn_at conn conns.now.entries) queues.old.queues) < max_waiting }
    ensures queued { IsQueued conns.now.entries queues.new.queues }
    ensures frames { (other : ConnId) → frames_of (conn_at other conns.now.entries) queues.new.queues ≡ (if same_conn conn other then frames_of (conn_at other conns.now.entries) queues.old.queues ++ frame ∷ [] else frames_of (conn_at other conns.now.entries) queues.old.queues) }
    ensures room { queues.new.room + 1 ≡ queues.old.room }
{
    match conns.get(&conn.0.0) {
        Some(found) => queues.push(found.queue, frame),
        None => unreachable!(),
    }
}

// Takes the first frame that waits on a connection.
fn take(conns: &IndexMap<u64, Conn>, queues: &mut Queues, conn: ConnId) -> Option<OutFrame>
    requires { IsQueued conns.now.entries queues.old.queues }
    ensures queued { IsQueued conns.now.entries queues.new.queues }
    ensures first { result ≡ slice_get (frames_of (conn_at conn conns.now.entries) queues.old.queues) 0 }
    ensures frames { (other : ConnId) → frames_of (conn_at other conns.now.entries) queues.new.queues ≡ (if same_conn conn other then drop 1 (frames_of (conn_at other conns.now.entries) queues.old.queues) else frames_of (conn_at other conns.now.entries) queues.old.queues) }
    ensures room { queues.new.room ≡ queues.old.room + (if is_some result then 1 else 0) }
{
    let found = conns.get(&conn.0.0).copied()?;
    queues.pop(found.queue)
}

// How many frames wait on a connection.
fn waiting(conns: &IndexMap<u64, Conn>, queues: &Queues, conn: ConnId) -> u64
    requires { IsQueued conns.now.entries queues.now.queues }
    ensures frames { result ≡ length (frames_of (conn_at conn conns.now.entries) queues.now.queues) }
    ensures bound { result ≤ max_waiting }
{
    match conns.get(&conn.0.0) {
        Some(found) => queues.len(found.queue),
        None => 0,
    }
}

// Keeps which entry closed a connection, if it is there and none did before.
fn close(conns: &mut IndexMap<u64, Conn>, conn: ConnId, at: EntryNo)
    ensures queues { (other : ConnId) → queue_of (conn_at other conns.new.entries) ≡ queue_of (conn_at other conns.old.entries) }
    ensures closed { (other : ConnId) → closing_of (conn_at other conns.new.entries) ≡ option_or (closing_of (conn_at other conns.old.entries)) (if same_conn conn other && is_some (conn_at other conns.old.entries) then Some at else None) }
{
    if let Some(found) = conns.get_mut(&conn.0.0) {
        if found.closed.is_none() {
            found.closed = Some(at);
        }
    }
}

// The entry that closed a connection.
fn closing(conns: &IndexMap<u64, Conn>, conn: ConnId) -> Option<EntryNo>
    ensures { result ≡ closing_of (conn_at conn conns.now.entries) }
{
    conns.get(&conn.0.0)?.closed
}
