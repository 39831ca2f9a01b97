//! Items with their values, in lists.

ghost use Rattle.std.specs.Prelude.{◌≡◌, ◌+◌, ◌<◌, ◌≤◌, ℕ, List, [], ◌∷◌, ◌++◌, length, map, slice_index_or, slice_set, Some, None, IsSome, IfSome, IfOk, OnOk, OnErr};
ghost use Rattle.vx_items.specs.Items.{Entry, value_at, item_count, first_id, last_id, number_of, leave_out, put_before, StandsIn, StandsBefore};

use crate::links::Links;
use crate::steps::Steps;
use std::alloc::Global;
use std::marker::Model;
use std::mem;
use std::sync::ledger::Ledger;
use vx_data::NoMemory;

/// The name of an item for as long as it is there. Once it was removed, an item that is added may get the same name.
#[derive(Clone, Copy, PartialEq, Eq)]
pub struct ItemId(pub usize);

/// The name of a list.
#[derive(Clone, Copy, PartialEq, Eq)]
pub struct ListId(pub usize);

/// Items in lists, and room for more of them. Contracts see the lists, each as its items in order with their values, and for
/// how many more items there is room. Each item stands in one list, once. Only `reserve` and `list` take memory, and each call
/// but `reserve` takes the same time, however many items and lists there are.
#[derive(Drop)]
pub struct Store<T> {
    values: Vec<Option<T>>,
    free: Vec<usize>,
    links: Links,
}

impl<T> Model for Store<T> {
    ghost use Rattle.std.specs.Prelude.{map, length, vec_capacity};
    ghost use Rattle.vx_items.specs.Items.{Items, items_code, entries, IsStored};

    ghost Value = { Items T };

    ghost coded = { items_code T.code };

    ghost view = { λ s. record { lists = map (entries s.values.items) s.links.lists; room = length s.free.items } };

    ghost invariant = { λ s. IsStored s.values.items s.free.items (vec_capacity s.free) s.links };
}

impl<T: Drop> Store<T> {
    /// No lists, and no room. It takes no memory.
    pub fn new(alloc: Global) -> Store<T>
        ensures { result ≡ record { lists = []; room = 0 } }
    {
        Store {
            values: Vec::new(alloc),
            free: Vec::new(alloc),
            links: Links::new(alloc),
        }
    }

    // Makes room for one more item.
    fn place(&mut self) -> Result<(), NoMemory>
        ensures lists { self.new.lists ≡ self.old.lists }
        ensures ok { OnOk result (self.new.room ≡ self.old.room + 1) }
        ensures err { OnErr result (self.new.room ≡ self.old.room) }
    {
        let place = self.values.len();
        let places = place.checked_add(1).ok_or(NoMemory)?;
        self.links.grow(places)?;
        self.free.reserve(places - self.free.len())?;
        self.values.push(None)?;
        self.free.push(place).unwrap();
        Ok(())
    }

    /// Makes room for `items` items beyond those that are there. `NoMemory` comes where memory runs out; there may then be
    /// more room than before, but less than was asked for.
    pub fn reserve(&mut self, items: u32) -> Result<(), NoMemory>
        ensures lists { self.new.lists ≡ self.old.lists }
        ensures kept { self.old.room ≤ self.new.room }
        ensures room { OnOk result (items ≤ self.new.room) }
    {
        for _item in self.free.len()..items as usize {
            self.place()?;
        }
        Ok(())
    }

    /// Adds an empty list. `NoMemory` comes where memory runs out, and then all is as before.
    pub fn list(&mut self) -> Result<ListId, NoMemory>
        ensures name { IfOk result (λ list. list.0 ≡ length self.old.lists) }
        ensures lists { OnOk result (self.new.lists ≡ self.old.lists ++ [] ∷ []) }
        ensures room { self.new.room ≡ self.old.room }
        ensures err { OnErr result (self.new.lists ≡ self.old.lists) }
    {
        Ok(ListId(self.links.list()?))
    }

    /// Adds an item at the end of a list. It takes no memory, since there is room for it.
    pub fn add(&mut self, value: T, list: ListId) -> ItemId
        requires room { 0 < self.old.room }
        requires list { list.0 < length self.old.lists }
        ensures new { value_at self.old.lists result.0 ≡ None }
        ensures lists { self.new.lists ≡ slice_set self.old.lists list.0 (slice_index_or self.old.lists list.0 [] ++ record { id = result.0; value = value } ∷ []) }
        ensures room { self.new.room + 1 ≡ self.old.room }
    {
        self.insert(value, list, None)
    }

    /// Adds an item to a list, right before another item of it, or at its end. It takes no memory, since there is room for it.
    pub fn insert(&mut self, value: T, list: ListId, before: Option<ItemId>) -> ItemId
        requires room { 0 < self.old.room }
        requires list { list.0 < length self.old.lists }
        requires before { StandsIn (number_of before) (slice_index_or self.old.lists list.0 []) }
        ensures new { value_at self.old.lists result.0 ≡ None }
        ensures lists { self.new.lists ≡ slice_set self.old.lists list.0 (put_before (number_of before) (record { id = result.0; value = value }) (slice_index_or self.old.lists list.0 [])) }
        ensures place { (front back : List (Entry T)) → slice_index_or self.old.lists list.0 [] ≡ front ++ back → number_of before ≡ first_id back →
            self.new.lists ≡ slice_set self.old.lists list.0 (front ++ record { id = result.0; value = value } ∷ back) }
        ensures room { self.new.room + 1 ≡ self.old.room }
    {
        let item = self.free.pop().unwrap();
        self.values[item] = Some(value);
        self.links.insert(item, list.0, number_of(before));
        ItemId(item)
    }

    /// Moves an item into a list, or within its own: right before another item of it, or to its end. It takes no memory.
    pub fn move_to(&mut self, item: ItemId, list: ListId, before: Option<ItemId>)
        requires item { IsSome (value_at self.old.lists item.0) }
        requires list { list.0 < length self.old.lists }
        requires before { StandsBefore item.0 (number_of before) (slice_index_or self.old.lists list.0 []) }
        ensures lists { (value : T) → value_at self.old.lists item.0 ≡ Some value →
            let others = map (leave_out item.0) self.old.lists in
            self.new.lists ≡ slice_set others list.0 (put_before (number_of before) (record { id = item.0; value = value }) (slice_index_or others list.0 [])) }
        ensures place { (from : ℕ) (left right front back : List (Entry T)) (value : T) → slice_index_or self.old.lists from [] ≡ left ++ record { id = item.0; value = value } ∷ right →
            slice_index_or (slice_set self.old.lists from (left ++ right)) list.0 [] ≡ front ++ back → number_of before ≡ first_id back →
            self.new.lists ≡ slice_set (slice_set self.old.lists from (left ++ right)) list.0 (front ++ record { id = item.0; value = value } ∷ back) }
        ensures room { self.new.room ≡ self.old.room }
    {
        self.links.remove(item.0);
        self.links.insert(item.0, list.0, number_of(before));
    }

    /// Takes an item out. There is room for one more then. It takes no memory.
    pub fn remove(&mut self, item: ItemId) -> T
        requires { IsSome (value_at self.old.lists item.0) }
        ensures value { value_at self.old.lists item.0 ≡ Some result }
        ensures lists { self.new.lists ≡ map (leave_out item.0) self.old.lists }
        ensures place { (list : ℕ) (before after : List (Entry T)) (value : T) → slice_index_or self.old.lists list [] ≡ before ++ record { id = item.0; value = value } ∷ after →
            (self.new.lists ≡ slice_set self.old.lists list (before ++ after)) × (result ≡ value) }
        ensures room { self.new.room ≡ self.old.room + 1 }
    {
        self.links.remove(item.0);
        self.free.push(item.0).unwrap();
        match mem::replace(&mut self.values[item.0], None) {
            Some(value) => value,
            None => unreachable!(),
        }
    }

    /// How many items there are.
    pub fn count(&self) -> usize
        ensures { result ≡ item_count self.now.lists }
    {
        self.values.len() - self.free.len()
    }

    /// The first item of a list.
    pub fn first(&self, list: ListId) -> Option<ItemId>
        requires { list.0 < length self.now.lists }
        ensures first { number_of result ≡ first_id (slice_index_or self.now.lists list.0 []) }
        ensures there { IfSome result (λ item. IsSome (value_at self.now.lists item.0)) }
    {
        id_of(self.links.first(list.0))
    }

    /// The last item of a list.
    pub fn last(&self, list: ListId) -> Option<ItemId>
        requires { list.0 < length self.now.lists }
        ensures last { number_of result ≡ last_id (slice_index_or self.now.lists list.0 []) }
        ensures there { IfSome result (λ item. IsSome (value_at self.now.lists item.0)) }
    {
        id_of(self.links.last(list.0))
    }

    /// The item that stands right behind one in its list.
    pub fn next(&self, item: ItemId) -> Option<ItemId>
        requires { IsSome (value_at self.now.lists item.0) }
        ensures next { (list : ℕ) (before after : List (Entry T)) (value : T) → slice_index_or self.now.lists list [] ≡ before ++ record { id = item.0; value = value } ∷ after → number_of result ≡ first_id after }
        ensures there { IfSome result (λ other. IsSome (value_at self.now.lists other.0)) }
    {
        id_of(self.links.next(item.0))
    }

    /// The item that stands right before one in its list.
    pub fn prev(&self, item: ItemId) -> Option<ItemId>
        requires { IsSome (value_at self.now.lists item.0) }
        ensures prev { (list : ℕ) (before after : List (Entry T)) (value : T) → slice_index_or self.now.lists list [] ≡ before ++ record { id = item.0; value = value } ∷ after → number_of result ≡ last_id before }
        ensures there { IfSome result (λ other. IsSome (value_at self.now.lists other.0)) }
    {
        id_of(self.links.prev(item.0))
    }

    /// The value of an item, and one step more. This alone reads a value.
    pub fn look<L: Ledger>(&self, item: ItemId, steps: &mut Steps<L>) -> &T
        requires { IsSome (value_at self.now.lists item.0) }
        ensures value { value_at self.now.lists item.0 ≡ Some result.now }
        ensures place { (list : ℕ) (before after : List (Entry T)) (value : T) → slice_index_or self.now.lists list [] ≡ before ++ record { id = item.0; value = value } ∷ after → result.now ≡ value }
        ensures step { steps.new ≡ steps.old + 1 }
    {
        steps.tick();
        match &self.values[item.0] {
            Some(value) => value,
            None => unreachable!(),
        }
    }
}

// The number of an item, if one is named.
fn number_of(item: Option<ItemId>) -> Option<usize>
    ensures { result ≡ number_of item }
{
    match item {
        Some(item) => Some(item.0),
        None => None,
    }
}

// The name of the item of a number, if there is one.
fn id_of(item: Option<usize>) -> Option<ItemId>
    ensures { number_of result ≡ item }
{
    match item {
        Some(item) => Some(ItemId(item)),
        None => None,
    }
}
