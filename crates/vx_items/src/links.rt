//! Lists of items by their numbers, without values.

ghost use Rattle.std.specs.Prelude.{◌≡◌, ◌+◌, ◌<◌, ◌≤◌, ℕ, List, [], ◌∷◌, ◌++◌, length, map, slice_index_or, slice_set, OnOk, OnErr, IfOk, IfSome};
ghost use Rattle.vx_items.specs.Lists.{total, without, with_before, first_of, last_of, HasBefore};
ghost use Rattle.vx_items.specs.Growing.{SameReads};

use crate::nodes::{Link, Node, item_of, link_before, node_before, unlink};
use std::alloc::{AllocError, Global};
use std::marker::Model;

/// Lists of items, where an item is a number below the number of places. No item stands in two places. Contracts see each
/// list as its items in order, and how many places there are.
#[derive(Drop)]
pub struct Links {
    links: Vec<Link>,
    ends: Vec<Link>,
}

impl Model for Links {
    ghost use Rattle.std.specs.Prelude.{length};
    ghost use Rattle.vx_items.specs.Rings.{Rings, rings, IsLinked};

    ghost Value = { Rings };

    ghost view = { λ a. record { lists = rings a.links.items a.ends.items; places = length a.links.items } };

    ghost invariant = { λ a. IsLinked a.links.items a.ends.items (rings a.links.items a.ends.items) };
}

impl Links {
    /// No lists. It takes no memory.
    pub fn new(alloc: Global) -> Links
        ensures { result ≡ record { lists = []; places = 0 } }
    {
        Links {
            links: Vec::new(alloc),
            ends: Vec::new(alloc),
        }
    }

    /// Makes places for the items of the numbers below `places`. `AllocError` comes where memory runs out; the lists are then
    /// as before, and some of the places may have been made.
    pub fn grow(&mut self, places: usize) -> Result<(), AllocError>
        ensures lists { self.new.lists ≡ self.old.lists }
        ensures kept { self.old.places ≤ self.new.places }
        ensures ok { OnOk result (places ≤ self.new.places) }
    {
        grow(&mut self.links, places)
    }

    /// Adds an empty list and gives its number, which is how many lists there were. `AllocError` comes where memory runs out,
    /// and then all is as before.
    pub fn list(&mut self) -> Result<usize, AllocError>
        ensures number { IfOk result (λ list. list ≡ length self.old.lists) }
        ensures lists { OnOk result (self.new.lists ≡ self.old.lists ++ [] ∷ []) }
        ensures places { OnOk result (self.new.places ≡ self.old.places) }
        ensures err { OnErr result (self.new ≡ self.old) }
    {
        let list = self.ends.len();
        let end = Node::End(list);
        self.ends.push(Link {
            next: end,
            prev: end,
        })?;
        Ok(list)
    }

    /// Puts an item that stands in no list into one, right before another item of it, or at its end. It takes no memory.
    pub fn insert(&mut self, item: usize, list: usize, before: Option<usize>)
        requires place { item < self.old.places }
        requires new { total item self.old.lists ≡ 0 }
        requires list { list < length self.old.lists }
        requires before { HasBefore before (slice_index_or self.old.lists list []) }
        ensures lists { self.new.lists ≡ slice_set self.old.lists list (with_before before item (slice_index_or self.old.lists list [])) }
        ensures places { self.new.places ≡ self.old.places }
    {
        let node = node_before(before, list);
        link_before(&mut self.links, &mut self.ends, item, node);
    }

    /// Takes an item out of its list. It takes no memory.
    pub fn remove(&mut self, item: usize)
        requires { 0 < total item self.old.lists }
        ensures lists { self.new.lists ≡ map (without item) self.old.lists }
        ensures places { self.new.places ≡ self.old.places }
    {
        unlink(&mut self.links, &mut self.ends, item);
    }

    /// The first item of a list.
    pub fn first(&self, list: usize) -> Option<usize>
        requires { list < length self.now.lists }
        ensures first { result ≡ first_of (slice_index_or self.now.lists list []) }
        ensures there { IfSome result (λ item. 0 < total item self.now.lists) }
    {
        item_of(self.ends[list].next)
    }

    /// The last item of a list.
    pub fn last(&self, list: usize) -> Option<usize>
        requires { list < length self.now.lists }
        ensures last { result ≡ last_of (slice_index_or self.now.lists list []) }
        ensures there { IfSome result (λ item. 0 < total item self.now.lists) }
    {
        item_of(self.ends[list].prev)
    }

    /// The item that stands right behind one in its list.
    pub fn next(&self, item: usize) -> Option<usize>
        requires { 0 < total item self.now.lists }
        ensures next { (list : ℕ) (before after : List ℕ) → slice_index_or self.now.lists list [] ≡ before ++ item ∷ after → result ≡ first_of after }
        ensures there { IfSome result (λ other. 0 < total other self.now.lists) }
    {
        item_of(self.links[item].next)
    }

    /// The item that stands right before one in its list.
    pub fn prev(&self, item: usize) -> Option<usize>
        requires { 0 < total item self.now.lists }
        ensures prev { (list : ℕ) (before after : List ℕ) → slice_index_or self.now.lists list [] ≡ before ++ item ∷ after → result ≡ last_of before }
        ensures there { IfSome result (λ other. 0 < total other self.now.lists) }
    {
        item_of(self.links[item].prev)
    }
}

// Adds places that are in no list.
fn grow(links: &mut Vec<Link>, places: usize) -> Result<(), AllocError>
    ensures same { SameReads links.old.items links.new.items }
    ensures ok { OnOk result (places ≤ length links.new.items) }
{
    for _added in links.len()..places {
        links.push(Link {
            next: Node::End(0),
            prev: Node::End(0),
        })?;
    }
    Ok(())
}
