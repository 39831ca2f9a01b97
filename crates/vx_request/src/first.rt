//! Maps that keep the first value of a key.

ghost use Rattle.std.specs.Prelude.{◌≡◌, ◌+◌, ◌<◌, ◌≤◌, ℕ, nat_eq, if◌then◌else◌, None, Some};
ghost use Rattle.std.specs.Option.{option_or};
ghost use Rattle.indexmap.specs.IndexMap.{get, spare};

use indexmap::IndexMap;

/// Gives a key its value, where it has none.
pub(crate) fn keep_first<V: Copy>(map: &mut IndexMap<u64, V>, key: u64, value: V)
    requires { 0 < spare map.old }
    ensures first { (k : ℕ) → get nat_eq map.new k ≡ option_or (get nat_eq map.old k) (if nat_eq k key then Some value else None) }
    ensures room { spare map.old ≤ spare map.new + 1 }
{
    if !map.contains_key(&key) {
        map.insert(key, value).unwrap();
    }
}
