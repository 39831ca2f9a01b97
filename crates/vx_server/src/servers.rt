ghost use Rattle.std.specs.Prelude.{◌≡◌, ◌+◌, ◌-◌, ◌%◌, ◌^◌, ℕ, min, not, if◌then◌else◌, [], ◌∷◌, ◌++◌, length, filter, find, slice_get, is_some, OnOk, OnErr};
ghost use Rattle.std.specs.List.{list_any};
ghost use Rattle.std.specs.Option.{option_map, option_copied};
ghost use Rattle.vx_server.specs.declared.place.Place.{Place};
ghost use Rattle.vx_server.specs.declared.servers.Server.{Server};
ghost use Rattle.vx_server.specs.Servers.{is_server, is_of, has_listener, listeners, count_at, turns_at, connecting, comes_in_at, AreCounted};

use crate::place::Place;
use crate::turns::{begin, forget_left};
use indexmap::IndexMap;
use std::alloc::Global;
use std::marker::Model;
use vx_data::{ContextId, NoMemory, ServerId, Text};

/// A server that listens: the context whose handler gets its connections, and where it listens.
#[derive(Drop)]
pub struct Server {
    pub id: ServerId,
    pub context: ContextId,
    pub place: Place,
}

/// The servers that listen, in the order of opening, and how many connections came in at each place since it last had no
/// server.
#[derive(Drop)]
pub struct Servers {
    listening: Vec<Server>,
    turns: IndexMap<Place, u64>,
    alloc: Global,
}

impl Model for Servers {
    ghost use Rattle.vx_server.specs.Servers.{ServerStore, AreCounted};

    ghost Value = { ServerStore };

    ghost view = { λ s. record { servers = s.listening.items; turns = s.turns.entries } };

    ghost invariant = { λ s. AreCounted s.listening.items s.turns.entries };
}

impl Servers {
    /// No servers. It takes no memory.
    pub fn new(alloc: Global) -> Servers
        ensures { result ≡ record { servers = []; turns = [] } }
    {
        Servers {
            listening: Vec::new(alloc),
            turns: IndexMap::new(alloc),
            alloc,
        }
    }

    /// Adds a server behind those that listen. `NoMemory` comes where memory runs out, and then all stays as it was.
    pub fn listen(
        &mut self,
        id: ServerId,
        context: ContextId,
        host: &Text,
        port: u16,
    ) -> Result<(), NoMemory>
        ensures added { OnOk result (self.new.servers ≡ self.old.servers ++ record { id = id; context = context; place = record { host = host.now; port = port } } ∷ []) }
        ensures without_memory_as_before { OnErr result (self.new.servers ≡ self.old.servers) }
        ensures turns { (place : Place) → turns_at place self.new.turns ≡ turns_at place self.old.turns }
    {
        let counted = Place::at(self.alloc, host, port)?;
        let place = Place::at(self.alloc, host, port)?;
        self.listening.reserve(1)?;
        begin(&mut self.turns, counted)?;
        let server = Server { id, context, place };
        self.listening.push(server).unwrap();
        Ok(())
    }

    /// The server that gets a connection which comes in where this one listens, or none where it doesn't listen. Those at
    /// a place take turns, and the connection is counted there; 2^64 - 1 turns stay as they are. It takes no memory.
    pub fn choose(&mut self, id: ServerId) -> Option<ServerId>
        ensures chosen { result ≡ option_map (λ (server : Server). server.id) (connecting id self.old) }
        ensures servers { self.new.servers ≡ self.old.servers }
        ensures turns { (place : Place) → turns_at place self.new.turns ≡ (if comes_in_at place (find (is_server id) self.old.servers) then min (turns_at place self.old.turns + 1) (2 ^ 64 - 1) else turns_at place self.old.turns) }
    {
        choose(&self.listening, &mut self.turns, id)
    }

    /// Takes a server out, and says whether it listened. Where it was the last one at its place, the turns there are
    /// counted from 0 again. It takes no memory.
    pub fn remove(&mut self, id: ServerId) -> bool
        ensures found { result ≡ list_any (is_server id) self.old.servers }
        ensures left { self.new.servers ≡ filter (λ server. not (is_server id server)) self.old.servers }
        ensures turns { (place : Place) → turns_at place self.new.turns ≡ (if has_listener place self.new.servers then turns_at place self.old.turns else 0) }
    {
        let found = self.context(id).is_some();
        leave_out(&mut self.listening, id);
        forget_left(&mut self.turns, &self.listening);
        found
    }

    /// Takes all servers of a context out, as it closes. Where the last one at a place goes, the turns there are counted
    /// from 0 again. It takes no memory.
    pub fn close(&mut self, context: ContextId)
        ensures left { self.new.servers ≡ filter (λ server. not (is_of context server)) self.old.servers }
        ensures turns { (place : Place) → turns_at place self.new.turns ≡ (if has_listener place self.new.servers then turns_at place self.old.turns else 0) }
    {
        leave_out_of(&mut self.listening, context);
        forget_left(&mut self.turns, &self.listening);
    }

    /// The context of a server, if it listens.
    pub fn context(&self, id: ServerId) -> Option<ContextId>
        ensures { result ≡ option_map (λ (server : Server). server.context) (find (is_server id) self.now.servers) }
    {
        context_of(&self.listening, id)
    }

    /// The servers that listen, in the order of opening.
    pub fn listening(&self) -> &[Server]
        ensures { result.now ≡ self.now.servers }
    {
        &self.listening
    }
}

/// Whether a server listens at a place.
pub fn has_listener(servers: &Vec<Server>, place: &Place) -> bool
    ensures { result ≡ has_listener place.now servers.now.items }
{
    servers.iter().any(|server| server.place == *place)
}

// The server of a name.
fn server_at(servers: &Vec<Server>, id: ServerId) -> Option<&Server>
    ensures { option_copied result ≡ find (is_server id) servers.now.items }
{
    servers.iter().find(|server| id == server.id)
}

// The context of a server.
fn context_of(servers: &Vec<Server>, id: ServerId) -> Option<ContextId>
    ensures { result ≡ option_map (λ (server : Server). server.context) (find (is_server id) servers.now.items) }
{
    servers
        .iter()
        .find(|server| id == server.id)
        .map(|server| server.context)
}

// Leaves a server out.
fn leave_out(servers: &mut Vec<Server>, id: ServerId)
    ensures { servers.new.items ≡ filter (λ server. not (is_server id server)) servers.old.items }
{
    servers.retain(|server| id != server.id);
}

// Leaves the servers of a context out.
fn leave_out_of(servers: &mut Vec<Server>, context: ContextId)
    ensures { servers.new.items ≡ filter (λ server. not (is_of context server)) servers.old.items }
{
    servers.retain(|server| context != server.context);
}

// The server whose turn it is where this one listens, and one turn more there.
fn choose(servers: &Vec<Server>, turns: &mut IndexMap<Place, u64>, id: ServerId) -> Option<ServerId>
    requires { AreCounted servers.now.items turns.old.entries }
    ensures counted { AreCounted servers.now.items turns.new.entries }
    ensures chosen { result ≡ option_map (λ (server : Server). server.id) (connecting id (record { servers = servers.now.items; turns = turns.old.entries })) }
    ensures turns { (place : Place) → turns_at place turns.new.entries ≡ (if comes_in_at place (find (is_server id) servers.now.items) then min (turns_at place turns.old.entries + 1) (2 ^ 64 - 1) else turns_at place turns.old.entries) }
{
    let server = server_at(servers, id)?;
    let turn = turns.get_mut(&server.place)?;
    let chosen = whose_turn(servers, &server.place, *turn);
    *turn = turn.saturating_add(1);
    chosen
}

// The server at a place whose turn it is.
fn whose_turn(servers: &Vec<Server>, place: &Place, turn: u64) -> Option<ServerId>
    ensures { result ≡ option_map (λ (server : Server). server.id) (slice_get (listeners place.now servers.now.items) (turn % length (listeners place.now servers.now.items))) }
{
    let number = turn.checked_rem(count(servers, place) as u64)?;
    listener(servers, place, number)
}

// How many servers listen at a place.
fn count(servers: &Vec<Server>, place: &Place) -> usize
    ensures { result ≡ length (listeners place.now servers.now.items) }
{
    servers
        .iter()
        .filter(|server| server.place == *place)
        .count()
}

// The server of this number among those at a place, from 0.
fn listener(servers: &[Server], place: &Place, number: u64) -> Option<ServerId>
    ensures { result ≡ option_map (λ (server : Server). server.id) (slice_get (listeners place.now servers.now) number) }
{
    let mut before = number;
    for server in servers {
        if server.place == *place {
            if before == 0 {
                return Some(server.id);
            }
            before -= 1;
        }
    }
    None
}
