ghost use Rattle.std.specs.Prelude.{◌≡◌, ◌+◌, ◌-◌, ◌<◌, ◌≤◌, ◌==◌, not, ◌&&◌, if◌then◌else◌, [], ◌∷◌, ◌++◌, length, map, filter, find, is_some, is_none, None, position, remove, take, slice_index_or, Some, IfErr, OnOk, OnErr, vec_len, vec_capacity};
ghost use Rattle.std.specs.Option.{option_copied, option_map, option_or, option_and_then};
ghost use Rattle.vx_data.specs.Ids.{same_context};
ghost use Rattle.vx_message.specs.declared.Held.{Held};
ghost use Rattle.vx_message.specs.declared.Item.{Item};
ghost use Rattle.vx_message.specs.declared.Mode.TheVariants as modes;
ghost use Rattle.vx_message.specs.declared.Pool.{Pool};
ghost use Rattle.vx_call.specs.Contexts.{is_context_of};
ghost use Rattle.vx_call.specs.Held.{context_held, ordered_context, is_of_context};
ghost use Rattle.vx_context.specs.Stores.{is_pool, runs_in, runs_ordered_in, may_run_in, is_full_in, is_held_on, is_ready, is_item_for, lane_in, handler_item, context_of, kept_open, is_kept_of, closed_in, closed_then, closed_by};

use crate::lanes::same_lane;
use std::alloc::Global;
use std::marker::Model;
use vx_data::{ConsumerId, ContextId, EntryNo, NoMemory, PassNo, PoolId};
use vx_message::{Context, Held, Item, ItemKind, Lane, Mode, Pool};

/// A context, and the entry that closed it: none while it is open.
#[derive(Drop)]
pub struct Kept {
    pub context: Context,
    pub closed: Option<EntryNo>,
}

impl Kept {
    // Closes the context at an entry, if it is open.
    fn close(&mut self, at: EntryNo)
        ensures { self.new ≡ closed_then at self.old }
    {
        self.closed = self.closed.or(Some(at));
    }

    // ... where it is the one of this name.
    fn close_named(&mut self, id: ContextId, at: EntryNo)
        ensures { self.new ≡ closed_by id at self.old }
    {
        if id == self.context.id {
            self.close(at);
        }
    }
}

/// Contexts and named worker pools, in the order of making; the tasks that passes hold; the tasks that wait, by (entry,
/// place). Each task that waits, and each that is yet to come and for which a place was reserved, can be put, taken and
/// held without memory. Places that are owed are kept for tasks that come later, however many others come before.
#[derive(Drop)]
pub struct Contexts {
    contexts: Vec<Kept>,
    pools: Vec<Pool>,
    held_tasks: Vec<Held>,
    items: Vec<Item>,
    owed: usize,
}

impl Model for Contexts {
    ghost use Rattle.std.specs.Prelude.{◌+◌, ◌-◌, ◌≤◌, min, map, vec_len, vec_capacity};
    ghost use Rattle.vx_context.specs.Stores.{ContextStore, context_of};

    ghost Value = { ContextStore };

    ghost view = { λ a. record {
      made = map context_of a.contexts.items;
      closings = a.contexts.items;
      pools = a.pools.items;
      held = a.held_tasks.items;
      waiting = a.items.items;
      owed = a.owed;
      room = min (vec_capacity a.items - vec_len a.items) (vec_capacity a.held_tasks - (vec_len a.held_tasks + vec_len a.items)) - a.owed;
    } };

    ghost invariant = { λ a. (vec_len a.held_tasks + vec_len a.items + a.owed ≤ vec_capacity a.held_tasks) × (vec_len a.items + a.owed ≤ vec_capacity a.items) };
}

impl Contexts {
    /// No contexts. It takes no memory.
    pub fn new(alloc: Global) -> Contexts
        ensures { result ≡ record { made = []; closings = []; pools = []; held = []; waiting = []; owed = 0; room = 0 } }
    {
        Contexts {
            contexts: Vec::new(alloc),
            pools: Vec::new(alloc),
            held_tasks: Vec::new(alloc),
            items: Vec::new(alloc),
            owed: 0,
        }
    }

    /// Adds a context, which is open.
    pub fn add(&mut self, context: Context) -> Result<(), NoMemory>
        ensures ok { OnOk result (self.new ≡ record self.old { made = self.old.made ++ context ∷ []; closings = self.new.closings }) }
        ensures closed { (id : ContextId) → closed_in id self.new.closings ≡ closed_in id self.old.closings }
        ensures err { OnErr result (self.new ≡ self.old) }
    {
        self.contexts.push(Kept {
            context,
            closed: None,
        })?;
        Ok(())
    }

    /// Adds contexts, which are open, in their order: all of them, or none where memory runs out.
    pub fn add_all(&mut self, contexts: &[Context]) -> Result<(), NoMemory>
        ensures ok { OnOk result (self.new ≡ record self.old { made = self.old.made ++ contexts.now; closings = self.old.closings ++ map kept_open contexts.now }) }
        ensures closed { (id : ContextId) → closed_in id self.new.closings ≡ closed_in id self.old.closings }
        ensures err { OnErr result (self.new ≡ self.old) }
    {
        self.contexts.reserve(contexts.len())?;
        push_open(&mut self.contexts, contexts);
        Ok(())
    }

    /// Takes the last contexts back, so many as were just added. It takes no memory.
    pub fn take_back(&mut self, count: usize)
        ensures { self.new ≡ record self.old { made = take (length self.old.made - count) self.old.made; closings = take (length self.old.closings - count) self.old.closings } }
    {
        self.contexts
            .truncate(self.contexts.len().saturating_sub(count));
    }

    /// Adds a worker pool. Without memory it comes back.
    pub fn add_pool(&mut self, pool: Pool) -> Result<(), Pool>
        ensures ok { OnOk result (self.new ≡ record self.old { pools = self.old.pools ++ pool ∷ [] }) }
        ensures err { OnErr result (self.new ≡ self.old) }
        ensures back { IfErr result (λ given_back. given_back ≡ pool) }
    {
        match self.pools.push(pool) {
            Ok(()) => Ok(()),
            Err(failed) => Err(failed.value),
        }
    }

    /// The context of this name.
    pub fn context(&self, id: ContextId) -> Option<Context>
        ensures { result ≡ find (is_context_of id) self.now.made }
    {
        context_in(&self.contexts, id)
    }

    /// The entry that closed a context, if one did.
    pub fn closed_at(&self, id: ContextId) -> Option<EntryNo>
        ensures { result ≡ closed_in id self.now.closings }
    {
        closed_at(&self.contexts, id)
    }

    /// Whether a context is there and open.
    pub fn is_open(&self, id: ContextId) -> bool
        ensures { result ≡ (is_some (find (is_context_of id) self.now.made) && is_none (closed_in id self.now.closings)) }
    {
        self.context(id).is_some() && self.closed_at(id).is_none()
    }

    /// The worker pools with a name, in the order of adding.
    pub fn pools(&self) -> &[Pool]
        ensures { result.now ≡ self.now.pools }
    {
        &self.pools
    }

    /// How many tasks of the pool of this name may run at once, where it is there.
    pub fn pool_size(&self, id: PoolId) -> Option<u32>
        ensures { result ≡ option_map (λ (pool : Pool). pool.size) (find (is_pool id) self.now.pools) }
    {
        size_of(&self.pools, id)
    }

    /// The task that a pass holds.
    pub fn holding(&self, pass: PassNo) -> Option<Held>
        ensures { result ≡ find (λ (h : Held). h.pass.0 == pass.0) self.now.held }
    {
        self.held_tasks.iter().copied().find(|h| h.pass == pass)
    }

    /// The context whose handler a pass holds.
    pub fn held_context(&self, pass: PassNo) -> Option<ContextId>
        ensures { result ≡ option_and_then context_held (find (λ (h : Held). h.pass.0 == pass.0) self.now.held) }
    {
        match self.holding(pass) {
            Some(held) => handler_of(held),
            None => None,
        }
    }

    /// The first task that is held of those that were taken from the lane.
    pub fn held_on(&self, lane: Lane) -> Option<Held>
        ensures { result ≡ find (is_held_on lane) self.now.held }
    {
        self.held_tasks
            .iter()
            .copied()
            .find(|h| same_lane(lane, h.lane))
    }

    /// Whether a handler of the context runs.
    pub fn runs(&self, context: ContextId) -> bool
        ensures { result ≡ runs_in self.now.held context }
    {
        self.held_tasks
            .iter()
            .any(|h| is_named(context, handler_of(*h)))
    }

    /// Whether ordered blocking code of the context runs.
    pub fn runs_ordered(&self, context: ContextId) -> bool
        ensures { result ≡ runs_ordered_in self.now.held context }
    {
        self.held_tasks
            .iter()
            .any(|h| is_named(context, ordered_of(*h)))
    }

    /// Makes room for so many tasks beyond those that wait and those that places are owed to, each until it is finished.
    pub fn reserve(&mut self, places: usize) -> Result<(), NoMemory>
        ensures same { self.new ≡ record self.old { room = self.new.room } }
        ensures kept { self.old.room ≤ self.new.room }
        ensures room { OnOk result (places ≤ self.new.room) }
    {
        let more = self.owed.checked_add(places).ok_or(NoMemory)?;
        let tasks = self.items.len().checked_add(more).ok_or(NoMemory)?;
        self.items.reserve(more)?;
        self.held_tasks.reserve(tasks)?;
        Ok(())
    }

    /// Puts so many places by, for tasks that come later.
    pub fn keep(&mut self, places: usize)
        requires { places ≤ self.old.room }
        ensures { self.new ≡ record self.old { owed = self.old.owed + places; room = self.old.room - places } }
    {
        self.owed += places;
    }

    /// Gives so many of the places back that are owed.
    pub fn release(&mut self, places: usize)
        requires { places ≤ self.old.owed }
        ensures { self.new ≡ record self.old { owed = self.old.owed - places; room = self.old.room + places } }
    {
        self.owed -= places;
    }

    /// Adds a handler's task to those that wait, on the lane of its context.
    pub fn put(&mut self, entry: EntryNo, place: u64, context: ContextId, kind: ItemKind)
        requires { 0 < self.old.room }
        ensures added { self.new ≡ record self.old { waiting = self.old.waiting ++ handler_item self.old.made entry place context kind ∷ []; room = self.new.room } }
        ensures room { self.old.room ≤ self.new.room + 1 }
    {
        let item = handler_item(&self.contexts, entry, place, context, kind);
        self.items.push(item).unwrap();
    }

    /// Adds a handler's task to those that wait, in one of the places that are owed.
    pub fn put_kept(&mut self, entry: EntryNo, place: u64, context: ContextId, kind: ItemKind)
        requires { 0 < self.old.owed }
        ensures added { self.new ≡ record self.old { waiting = self.old.waiting ++ handler_item self.old.made entry place context kind ∷ []; owed = self.old.owed - 1; room = self.new.room } }
        ensures room { self.old.room ≤ self.new.room }
    {
        self.release(1);
        self.put(entry, place, context, kind);
    }

    /// The tasks that wait, by (entry, place).
    pub fn items(&self) -> &[Item]
        ensures { result.now ≡ self.now.waiting }
    {
        &self.items
    }

    /// The place of the first waiting task that may be taken from the lane.
    pub fn next(&self, lane: Lane) -> Option<usize>
        ensures { result ≡ position (is_ready self.now.pools self.now.held lane) self.now.waiting }
    {
        let full = self.is_full(lane);
        self.items.iter().position(|item| !full
            && same_lane(lane, item.lane)
            && self.may_run(*item))
    }

    // Whether as many tasks of a named pool are held as it has workers.
    fn is_full(&self, lane: Lane) -> bool
        ensures { result ≡ is_full_in self.now.pools self.now.held lane }
    {
        match lane {
            Lane::Named(id) => match self.pool_size(id) {
                Some(size) => size as usize <= count_on(&self.held_tasks, lane),
                None => false,
            },
            _ => false,
        }
    }

    // Whether nothing runs that keeps the task from running.
    fn may_run(&self, item: Item) -> bool
        ensures { result ≡ may_run_in self.now.held item }
    {
        match item.mode {
            Mode::Handler => !self.runs(item.context),
            Mode::Ordered => !self.runs_ordered(item.context),
            Mode::Free => true,
        }
    }

    /// Takes a task that waits, which the pass holds from then on.
    pub fn take(&mut self, index: usize, pass: PassNo, at: EntryNo) -> Item
        requires { index < length self.old.waiting }
        ensures item { result ≡ slice_index_or self.old.waiting index result }
        ensures taken { self.new ≡ record self.old { waiting = remove self.old.waiting index; held = self.old.held ++ record { pass = pass; at = at; lane = result.lane; context = Some result.context; mode = result.mode; kind = result.kind } ∷ []; room = self.new.room } }
        ensures room { self.old.room ≤ self.new.room }
    {
        let item = self.items.remove(index);
        self.held_tasks
            .push(Held {
                pass,
                at,
                lane: item.lane,
                context: Some(item.context),
                mode: item.mode,
                kind: item.kind,
            })
            .unwrap();
        item
    }

    /// Ends what a pass holds.
    pub fn finish(&mut self, pass: PassNo)
        ensures ended { self.new ≡ record self.old { held = filter (λ (h : Held). not (h.pass.0 == pass.0)) self.old.held; room = self.new.room } }
        ensures room { self.old.room ≤ self.new.room }
    {
        let_go(&mut self.held_tasks, pass);
    }

    /// Leaves out the messages that wait for a consumer.
    pub fn cancel(&mut self, consumer: ConsumerId)
        ensures left { self.new ≡ record self.old { waiting = filter (λ (item : Item). not (is_item_for consumer item.kind)) self.old.waiting; room = self.new.room } }
        ensures room { self.old.room + length self.old.waiting ≤ self.new.room + length self.new.waiting }
    {
        leave_out(&mut self.items, consumer);
    }

    /// Closes a context at an entry, if it is there and open, and leaves out the tasks that wait for it.
    pub fn close(&mut self, id: ContextId, at: EntryNo)
        ensures left { self.new ≡ record self.old { closings = self.new.closings; waiting = filter (λ (item : Item). not (same_context id item.context)) self.old.waiting; room = self.new.room } }
        ensures closed { (other : ContextId) → closed_in other self.new.closings ≡ option_or (closed_in other self.old.closings) (if same_context other id && is_some (find (is_context_of other) self.old.made) then Some at else None) }
        ensures room { self.old.room + length self.old.waiting ≤ self.new.room + length self.new.waiting }
    {
        close_one(&mut self.contexts, id, at);
        leave_out_context(&mut self.items, id);
    }

    /// Closes at an entry each context that is open. No task waits any more.
    pub fn close_all(&mut self, at: EntryNo)
        ensures left { self.new ≡ record self.old { closings = self.new.closings; waiting = []; room = self.new.room } }
        ensures closed { (other : ContextId) → closed_in other self.new.closings ≡ option_or (closed_in other self.old.closings) (if is_some (find (is_context_of other) self.old.made) then Some at else None) }
        ensures room { self.old.room + length self.old.waiting ≤ self.new.room }
    {
        close_each(&mut self.contexts, at);
        self.items.clear();
    }
}

// What is kept of the context of this name.
fn kept_in(contexts: &Vec<Kept>, id: ContextId) -> Option<&Kept>
    ensures { option_copied result ≡ find (is_kept_of id) contexts.now.items }
{
    contexts.iter().find(|kept| id == kept.context.id)
}

// The context of this name.
#[tactic(auto, using(crate::proofs::Closings::find_context))]
fn context_in(contexts: &Vec<Kept>, id: ContextId) -> Option<Context>
    ensures { result ≡ find (is_context_of id) (map context_of contexts.now.items) }
{
    match kept_in(contexts, id) {
        Some(kept) => Some(kept.context),
        None => None,
    }
}

// The entry that closed a context.
fn closed_at(contexts: &Vec<Kept>, id: ContextId) -> Option<EntryNo>
    ensures { result ≡ closed_in id contexts.now.items }
{
    match kept_in(contexts, id) {
        Some(kept) => kept.closed,
        None => None,
    }
}

// Adds contexts that are open, for which there is room.
fn push_open(contexts: &mut Vec<Kept>, more: &[Context])
    requires { vec_len contexts.old + length more.now ≤ vec_capacity contexts.old }
    ensures added { contexts.new.items ≡ contexts.old.items ++ map kept_open more.now }
    ensures made { map context_of contexts.new.items ≡ map context_of contexts.old.items ++ more.now }
    ensures closed { (id : ContextId) → closed_in id contexts.new.items ≡ closed_in id contexts.old.items }
{
    for context in more.iter() {
        contexts
            .push(Kept {
                context: *context,
                closed: None,
            })
            .unwrap();
    }
}

// Closes a context at an entry, if it is there and open.
fn close_one(contexts: &mut Vec<Kept>, id: ContextId, at: EntryNo)
    ensures made { map context_of contexts.new.items ≡ map context_of contexts.old.items }
    ensures closed { (other : ContextId) → closed_in other contexts.new.items ≡ option_or (closed_in other contexts.old.items) (if same_context other id && is_some (find (is_context_of other) (map context_of contexts.old.items)) then Some at else None) }
{
    for kept in contexts.iter_mut() {
        kept.close_named(id, at);
    }
}

// Closes at an entry each context that is open.
fn close_each(contexts: &mut Vec<Kept>, at: EntryNo)
    ensures made { map context_of contexts.new.items ≡ map context_of contexts.old.items }
    ensures closed { (other : ContextId) → closed_in other contexts.new.items ≡ option_or (closed_in other contexts.old.items) (if is_some (find (is_context_of other) (map context_of contexts.old.items)) then Some at else None) }
{
    for kept in contexts.iter_mut() {
        kept.close(at);
    }
}

// A handler's task, on the lane of its context.
fn handler_item(
    contexts: &Vec<Kept>,
    entry: EntryNo,
    place: u64,
    context: ContextId,
    kind: ItemKind,
) -> Item
    ensures { result ≡ handler_item (map context_of contexts.now.items) entry place context kind }
{
    Item {
        entry,
        place,
        context,
        lane: handlers_lane(context_in(contexts, context)),
        mode: Mode::Handler,
        kind,
    }
}

// The lane of a context's handlers.
fn handlers_lane(context: Option<Context>) -> Lane
    ensures { result ≡ lane_in context modes.Handler }
{
    match context {
        Some(found) => found.lane,
        None => Lane::Pool,
    }
}

// The context whose handler the task is.
fn handler_of(held: Held) -> Option<ContextId>
    ensures { result ≡ context_held held }
{
    match held.mode {
        Mode::Handler => held.context,
        Mode::Ordered | Mode::Free => None,
    }
}

// The context whose ordered blocking code the task is.
fn ordered_of(held: Held) -> Option<ContextId>
    ensures { result ≡ ordered_context held.mode held.context }
{
    match held.mode {
        Mode::Ordered => held.context,
        Mode::Handler | Mode::Free => None,
    }
}

// Whether the context is this one.
fn is_named(context: ContextId, other: Option<ContextId>) -> bool
    ensures { result ≡ is_of_context context other }
{
    match other {
        Some(other) => context == other,
        None => false,
    }
}

// How many tasks of the pool of this name may run at once.
fn size_of(pools: &Vec<Pool>, id: PoolId) -> Option<u32>
    ensures { result ≡ option_map (λ (pool : Pool). pool.size) (find (is_pool id) pools.now.items) }
{
    pools
        .iter()
        .find(|pool| id == pool.id)
        .map(|pool| pool.size)
}

// How many tasks are held that were taken from the lane.
fn count_on(held: &Vec<Held>, lane: Lane) -> usize
    ensures { result ≡ length (filter (is_held_on lane) held.now.items) }
{
    held.iter().filter(|h| same_lane(lane, h.lane)).count()
}

// Whether it is a message for the consumer.
fn is_for(consumer: ConsumerId, kind: ItemKind) -> bool
    ensures { result ≡ is_item_for consumer kind }
{
    match kind {
        ItemKind::Deliver(other, _) => consumer == other,
        _ => false,
    }
}

// Leaves out what a pass holds.
fn let_go(held: &mut Vec<Held>, pass: PassNo)
    ensures items { held.new.items ≡ filter (λ (h : Held). not (h.pass.0 == pass.0)) held.old.items }
    ensures len { vec_len held.new ≤ vec_len held.old }
    ensures capacity { vec_capacity held.new ≡ vec_capacity held.old }
{
    held.retain(|h| h.pass != pass);
}

// Leaves out the messages that wait for a consumer.
fn leave_out(items: &mut Vec<Item>, consumer: ConsumerId)
    ensures items { items.new.items ≡ filter (λ (item : Item). not (is_item_for consumer item.kind)) items.old.items }
    ensures len { vec_len items.new ≤ vec_len items.old }
    ensures capacity { vec_capacity items.new ≡ vec_capacity items.old }
{
    items.retain(|item| !is_for(consumer, item.kind));
}

// Leaves out the tasks that wait for a context.
fn leave_out_context(items: &mut Vec<Item>, context: ContextId)
    ensures items { items.new.items ≡ filter (λ (item : Item). not (same_context context item.context)) items.old.items }
    ensures len { vec_len items.new ≤ vec_len items.old }
    ensures capacity { vec_capacity items.new ≡ vec_capacity items.old }
{
    items.retain(|item| context != item.context);
}
