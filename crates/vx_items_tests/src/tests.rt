ghost use Rattle.std.specs.Prelude.{◌≡◌, ◌≤◌, [], ◌∷◌, IfOk, IsSome};
ghost use Rattle.vx_items.specs.Items.{value_at};

use std::alloc::Global;
use std::marker::Brand;
use std::sync::ledger::{Blank, Ledger};
use std::test::Fail;
use vx_data::NoMemory;
use vx_items::{ItemId, Links, ListId, Steps, Store};

const NEWS: ListId = ListId(0);

const OLD: ListId = ListId(1);

// Two lists, and room for three items.
fn two_lists(alloc: Global) -> Result<Store<u32>, NoMemory>
    ensures lists { IfOk result (λ store. store.lists ≡ [] ∷ [] ∷ []) }
    ensures room { IfOk result (λ store. 3 ≤ store.room) }
{
    let mut store = Store::new(alloc);
    store.list()?;
    store.list()?;
    store.reserve(3)?;
    Ok(store)
}

// Puts two items into one list and a third into the other, moves that one between the two, and says whether the three are
// found from either end.
fn are_found(store: &mut Store<u32>) -> bool
    requires lists { store.old.lists ≡ [] ∷ [] ∷ [] }
    requires room { 3 ≤ store.old.room }
{
    let first = store.add(1, NEWS);
    let last = store.add(2, NEWS);
    let middle = store.add(3, OLD);
    store.move_to(middle, NEWS, Some(last));
    store.first(NEWS) == Some(first)
        && store.next(first) == Some(middle)
        && store.last(NEWS) == Some(last)
        && store.prev(last) == Some(middle)
        && store.first(OLD).is_none()
}

// Adds an item, looks at it and takes it out again: the two values and how often one was looked at.
fn look_and_remove(store: &mut Store<u32>) -> (u32, u32)
    requires lists { store.old.lists ≡ [] ∷ [] ∷ [] }
    requires room { 3 ≤ store.old.room }
{
    let item = store.insert(7, OLD, None);
    let seen = value::<Brand>(store, item, Blank::new(1));
    (seen, store.remove(item))
}

// The value of an item.
fn value<L: Ledger>(store: &Store<u32>, item: ItemId, blank: Blank) -> u32
    requires item { IsSome (value_at store.now.lists item.0) }
    requires name { blank.name ≡ L.name }
    requires parts { blank.parts ≡ L.parts }
    requires some { L.parts ≡ 1 }
{
    let mut steps: Steps<L> = Steps::new(blank);
    *store.look(item, &mut steps)
}

#[test]
fn items_are_found_from_either_end(rt: HostRuntime) -> Result<(), Fail> {
    let mut store = two_lists(rt.alloc())?;
    let found = are_found(&mut store);
    assert!(rt; found);
    Ok(())
}

#[test]
fn an_item_keeps_its_value(rt: HostRuntime) -> Result<(), Fail> {
    let mut store = two_lists(rt.alloc())?;
    let values = look_and_remove(&mut store);
    assert!(rt; values == (7, 7));
    Ok(())
}

#[test]
fn numbers_stand_in_lists(rt: HostRuntime) -> Result<(), Fail> {
    let mut links = Links::new(rt.alloc());
    links.grow(2)?;
    let list = links.list()?;
    links.insert(1, list, None);
    links.insert(0, list, Some(1));
    let first = links.first(list) == Some(0) && links.next(0) == Some(1);
    let last = links.last(list) == Some(1) && links.prev(1) == Some(0);
    links.remove(0);
    assert!(rt; first && last && links.first(list) == Some(1));
    Ok(())
}
