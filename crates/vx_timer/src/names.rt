//! The items of timers by the timers' ids.

ghost use Rattle.std.specs.Prelude.{◌≡◌, ◌<◌, ℕ, nat_eq, if◌then◌else◌, is_some, true, None, Some};
ghost use Rattle.indexmap.specs.IndexMap.{spare};
ghost use Rattle.vx_timer.specs.Queued.{item_at};

use indexmap::IndexMap;
use vx_data::EntryNo;
use vx_items::ItemId;

/// Notes the item of an id, and says whether the id had one.
pub fn note(names: &mut IndexMap<u64, ItemId>, id: EntryNo, item: ItemId) -> bool
    requires { 0 < spare names.old }
    ensures found { result ≡ is_some (item_at id.0 names.old.entries) }
    ensures noted { (other : ℕ) → item_at other names.new.entries ≡ (if nat_eq other id.0 then Some item else item_at other names.old.entries) }
{
    names.insert(id.0, item).unwrap().is_some()
}

/// Notes another item of an id that has one.
pub fn note_again(names: &mut IndexMap<u64, ItemId>, id: EntryNo, item: ItemId)
    ensures { is_some (item_at id.0 names.old.entries) ≡ true → (other : ℕ) → item_at other names.new.entries ≡ (if nat_eq other id.0 then Some item else item_at other names.old.entries) }
{
    if let Some(named) = names.get_mut(&id.0) {
        *named = item;
    }
}

/// Forgets an id, and gives its item.
pub fn forget(names: &mut IndexMap<u64, ItemId>, id: EntryNo) -> Option<ItemId>
    ensures item { result ≡ item_at id.0 names.old.entries }
    ensures forgotten { (other : ℕ) → item_at other names.new.entries ≡ (if nat_eq other id.0 then None else item_at other names.old.entries) }
{
    names.swap_remove(&id.0)
}
