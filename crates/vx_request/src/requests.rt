ghost use Rattle.std.specs.Prelude.{◌≡◌, ◌+◌, ◌<◌, ◌≤◌, not, if◌then◌else◌, ◌&&◌, [], ◌∷◌, ◌++◌, length, filter, find, is_some, None, Some, IsOk, OnOk, OnErr, vec_len, vec_capacity};
ghost use Rattle.std.specs.Option.{option_map, option_or};
ghost use Rattle.indexmap.specs.IndexMap.{spare};
ghost use Rattle.vx_data.specs.declared.ids.MessageId.{MessageId};
ghost use Rattle.vx_request.specs.declared.requests.OpenRequest.{OpenRequest};
ghost use Rattle.vx_data.specs.Ids.{same_message};
ghost use Rattle.vx_request.specs.Stores.{is_request, ended_at, is_lost};
ghost use Rattle.vx_request.specs.Leaving.{is_left, ends_with, fails_with};

use crate::first::keep_first;
use crate::given::GivenOut;
use crate::leaver::Leaver;
use indexmap::IndexMap;
use std::alloc::Global;
use std::marker::Model;
use vx_data::{ConsumerId, ContextId, EntryNo, MessageId, NoMemory};
use vx_message::Owner;

/// A request that waits for its outcome: who asks, the consumer that the request reached, if it reached one, and the
/// context whose handler gets the message, none where a connection does.
#[derive(Clone, Copy)]
pub struct OpenRequest {
    pub id: MessageId,
    pub asker: Owner,
    pub receiver: Option<ConsumerId>,
    pub home: Option<ContextId>,
}

/// Requests that wait for their outcome, in the order of opening, and the entry at which each other one ended.
#[derive(Drop)]
pub struct Requests {
    rows: Vec<OpenRequest>,
    ended: IndexMap<u64, EntryNo>,
}

impl Model for Requests {
    ghost use Rattle.std.specs.Prelude.{◌≤◌, ◌-◌, min, length, vec_len, vec_capacity};
    ghost use Rattle.indexmap.specs.IndexMap.{spare};
    ghost use Rattle.vx_request.specs.Stores.{RequestStore};

    ghost Value = { RequestStore };

    ghost view = { λ a. record { waiting = a.rows.items; ended = a.ended.entries; room = min (vec_capacity a.rows - vec_len a.rows) (spare a.ended - length a.rows.items) } };

    ghost invariant = { λ a. length a.rows.items ≤ spare a.ended };
}

// Whether a request reached the consumer, and was not given out to a handler.
fn is_lost(row: &OpenRequest, receiver: ConsumerId, given: &GivenOut) -> bool
    ensures { result ≡ is_lost receiver given.now.given row.now }
{
    row.receiver == Some(receiver) && given.given(row.id).is_none()
}

// Whether a handler of a context that leaves was to get the request's message, and was not given it.
fn is_left(row: &OpenRequest, leaver: Leaver, given: &GivenOut) -> bool
    ensures { result ≡ is_left leaver given.now.given row.now }
{
    leaver.has_home(row.home) && given.given(row.id).is_none()
}

/// Whether a request ends with what leaves: its asker leaves, or nobody can reply to it any more.
pub fn ends_with(row: &OpenRequest, leaver: Leaver, given: &GivenOut) -> bool
    ensures { result ≡ ends_with leaver given.now.given row.now }
{
    match leaver {
        Leaver::Consumer(receiver) => is_lost(row, receiver, given),
        _ => leaver.owns(row.asker) || is_left(row, leaver, given),
    }
}

/// Whether a request ends with what leaves, and its asker stays.
pub fn fails_with(row: &OpenRequest, leaver: Leaver, given: &GivenOut) -> bool
    ensures { result ≡ fails_with leaver given.now.given row.now }
{
    match leaver {
        Leaver::Consumer(receiver) => is_lost(row, receiver, given),
        _ => !leaver.owns(row.asker) && is_left(row, leaver, given),
    }
}

impl Requests {
    /// No requests. It takes no memory.
    pub fn new(alloc: Global) -> Requests
        ensures { result ≡ record { waiting = []; ended = []; room = 0 } }
    {
        Requests {
            rows: Vec::new(alloc),
            ended: IndexMap::new(alloc),
        }
    }

    /// Makes room for one more request, and for its ending. It fails where memory runs out.
    pub fn reserve(&mut self) -> Result<(), NoMemory>
        ensures same { self.new ≡ record self.old { room = self.new.room } }
        ensures room { OnOk result (0 < self.new.room) }
    {
        self.rows.reserve(1)?;
        self.ended.reserve(self.rows.len() + 1)?;
        Ok(())
    }

    /// Opens a request: its receiver is none where it is for the asker of another request. It fails where memory runs out.
    pub fn open(&mut self, row: OpenRequest) -> Result<(), NoMemory>
        ensures ok { OnOk result (self.new ≡ record self.old { waiting = self.old.waiting ++ row ∷ []; room = self.new.room }) }
        ensures sure { 0 < self.old.room → IsOk result }
        ensures err { OnErr result (self.new ≡ record self.old { room = self.new.room }) }
    {
        add(&mut self.rows, &mut self.ended, row)
    }

    /// Ends a request at an entry, and says who asked, if it was open. An entry of ending stays once it is there. It
    /// takes no memory.
    pub fn settle(&mut self, id: MessageId, at: EntryNo) -> Option<Owner>
        ensures asker { result ≡ option_map (λ (row : OpenRequest). row.asker) (find (is_request id) self.old.waiting) }
        ensures left { self.new.waiting ≡ filter (λ row. not (is_request id row)) self.old.waiting }
        ensures ended { (m : MessageId) → ended_at m self.new.ended ≡ option_or (ended_at m self.old.ended) (if same_message m id && is_some result then Some at else None) }
        ensures room { self.old.room ≤ self.new.room }
    {
        end_open(&mut self.rows, &mut self.ended, id, at)
    }

    /// Ends a request that reached nobody: it is never open. An entry of ending stays once it is there. It fails where
    /// memory runs out.
    pub fn end_unheard(&mut self, id: MessageId, at: EntryNo) -> Result<(), NoMemory>
        ensures same { self.new.waiting ≡ self.old.waiting }
        ensures ok { OnOk result ((m : MessageId) → ended_at m self.new.ended ≡ option_or (ended_at m self.old.ended) (if same_message m id then Some at else None)) }
        ensures err { OnErr result (self.new ≡ record self.old { room = self.new.room }) }
    {
        self.ended.reserve(self.rows.len() + 1)?;
        keep_first(&mut self.ended, id.0.0, at);
        Ok(())
    }

    /// Ends the requests that end with what leaves. An entry of ending stays once it is there. It takes no memory.
    pub fn end_with(&mut self, leaver: Leaver, given: &GivenOut, at: EntryNo)
        ensures left { self.new.waiting ≡ filter (λ row. not (ends_with leaver given.now.given row)) self.old.waiting }
        ensures ended { (m : MessageId) → ended_at m self.new.ended ≡ option_or (ended_at m self.old.ended) (option_map (λ _. at) (find (is_request m) (filter (ends_with leaver given.now.given) self.old.waiting))) }
    {
        end_each(&self.rows, &mut self.ended, leaver, given, at);
        leave_out_ended(&mut self.rows, leaver, given);
    }

    /// The entry at which a request ended, if it did.
    pub fn settled(&self, id: MessageId) -> Option<EntryNo>
        ensures { result ≡ ended_at id self.now.ended }
    {
        self.ended.get(&id.0.0).copied()
    }

    /// Who waits for the outcome of a request, if it is open.
    pub fn asker(&self, id: MessageId) -> Option<Owner>
        ensures { result ≡ option_map (λ (row : OpenRequest). row.asker) (find (is_request id) self.now.waiting) }
    {
        asker_of(&self.rows, id)
    }

    /// The requests that wait, in the order of opening.
    pub fn waiting(&self) -> &[OpenRequest]
        ensures { result.now ≡ self.now.waiting }
    {
        &self.rows
    }
}

// Adds a request to those that wait, with room for its ending.
fn add(
    waiting: &mut Vec<OpenRequest>,
    ended: &mut IndexMap<u64, EntryNo>,
    row: OpenRequest,
) -> Result<(), NoMemory>
    requires { length waiting.old.items ≤ spare ended.old }
    ensures sure { vec_len waiting.old < vec_capacity waiting.old → length waiting.old.items < spare ended.old → IsOk result }
    ensures ok { OnOk result (waiting.new.items ≡ waiting.old.items ++ row ∷ []) }
    ensures err { OnErr result (waiting.new.items ≡ waiting.old.items) }
    ensures same { ended.new.entries ≡ ended.old.entries }
    ensures room { length waiting.new.items ≤ spare ended.new }
{
    ended.reserve(waiting.len() + 1)?;
    waiting.push(row)?;
    Ok(())
}

// Who waits for the outcome of a request.
fn asker_of(waiting: &Vec<OpenRequest>, id: MessageId) -> Option<Owner>
    ensures { result ≡ option_map (λ (row : OpenRequest). row.asker) (find (is_request id) waiting.now.items) }
{
    waiting.iter().find(|row| id == row.id).map(|row| row.asker)
}

// Ends a request, if it is open.
fn end_open(
    waiting: &mut Vec<OpenRequest>,
    ended: &mut IndexMap<u64, EntryNo>,
    id: MessageId,
    at: EntryNo,
) -> Option<Owner>
    requires { length waiting.old.items ≤ spare ended.old }
    ensures asker { result ≡ option_map (λ (row : OpenRequest). row.asker) (find (is_request id) waiting.old.items) }
    ensures left { waiting.new.items ≡ filter (λ row. not (is_request id row)) waiting.old.items }
    ensures ended { (m : MessageId) → ended_at m ended.new.entries ≡ option_or (ended_at m ended.old.entries) (if same_message m id && is_some result then Some at else None) }
    ensures room { length waiting.new.items ≤ spare ended.new }
    ensures places { spare ended.old + length waiting.new.items ≤ spare ended.new + length waiting.old.items }
    ensures len { vec_len waiting.new ≤ vec_len waiting.old }
    ensures capacity { vec_capacity waiting.new ≡ vec_capacity waiting.old }
{
    let asker = asker_of(waiting, id)?;
    keep_first(ended, id.0.0, at);
    leave_out(waiting, id);
    Some(asker)
}

// Leaves out a request.
fn leave_out(waiting: &mut Vec<OpenRequest>, id: MessageId)
    ensures len { vec_len waiting.new ≤ vec_len waiting.old }
    ensures capacity { vec_capacity waiting.new ≡ vec_capacity waiting.old }
    ensures left { waiting.new.items ≡ filter (λ row. not (is_request id row)) waiting.old.items }
{
    waiting.retain(|row| id != row.id);
}

// Leaves out the requests that end with what leaves.
fn leave_out_ended(waiting: &mut Vec<OpenRequest>, leaver: Leaver, given: &GivenOut)
    ensures { waiting.new.items ≡ filter (λ row. not (ends_with leaver given.now.given row)) waiting.old.items }
{
    waiting.retain(|row| !ends_with(row, leaver, given));
}

// Ends each request that ends with what leaves.
fn end_each(
    waiting: &[OpenRequest],
    ended: &mut IndexMap<u64, EntryNo>,
    leaver: Leaver,
    given: &GivenOut,
    at: EntryNo,
)
    requires { length (filter (ends_with leaver given.now.given) waiting.now) ≤ spare ended.old }
    ensures ended { (m : MessageId) → ended_at m ended.new.entries ≡ option_or (ended_at m ended.old.entries) (option_map (λ _. at) (find (is_request m) (filter (ends_with leaver given.now.given) waiting.now))) }
    ensures room { spare ended.old ≤ spare ended.new + length (filter (ends_with leaver given.now.given) waiting.now) }
{
    for row in waiting {
        if ends_with(row, leaver, given) {
            keep_first(ended, row.id.0.0, at);
        }
    }
}
