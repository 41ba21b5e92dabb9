//! Ordered tables that are filled step by step: what a key was first given, and keys that were seen.

ghost use Rattle.std.specs.Prelude.{◌≡◌, ◌||◌, not, IfOk, OnOk, Some, None, if◌then◌else◌};
ghost use Rattle.std.specs.Option.{option_or};
ghost use Rattle.std.specs.BTreeMap.{get};
ghost use Rattle.std.specs.BTreeSet.{contains};

use std::collections::{BTreeMap, BTreeSet};
use tydi_base::Memory;

/// Gives a key this value, where it has none. `Memory` comes where there is none for the key.
pub fn keep_first<K: Ord + Drop, V: Drop>(
    table: &mut BTreeMap<K, V>,
    key: K,
    value: V,
) -> Result<(), Memory>
    ensures { OnOk result ((other : K) → get K.cmp table.new other
        ≡ option_or (get K.cmp table.old other) (if K.eq key other then Some value else None)) }
{
    if !table.contains_key(&key) {
        table.insert(key, value)?;
    }
    Ok(())
}

/// Adds a key, and says whether it is new. `Memory` comes where there is none for the key.
pub fn note<K: Ord + Drop>(keys: &mut BTreeSet<K>, key: K) -> Result<bool, Memory>
    ensures new { IfOk result (λ is_new. is_new ≡ not (contains K.cmp keys.old key)) }
    ensures added { OnOk result ((other : K) → contains K.cmp keys.new other ≡ (contains K.cmp keys.old other || K.eq key other)) }
{
    Ok(keys.insert(key)?)
}
