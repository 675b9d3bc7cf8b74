//! Items by their keys.

ghost use Rattle.std.specs.Prelude.{◌≡◌, ◌++◌, ◌∷◌, [], true, false, OnOk};
ghost use Rattle.graph_table.specs.Waiting.{items_at};

use indexmap::IndexMap;
use preorder::NoMemory;
use std::alloc::Global;
use std::hash::Hash;

/// Takes the items of a key out of the map.
pub fn take_items<K: Copy + Eq + Hash, T: Drop>(
    alloc: Global,
    map: &mut IndexMap<K, Vec<T>>,
    key: &K,
) -> Vec<T>
    ensures items { result.items ≡ items_at K.eq map.old key.now }
    ensures others { (q : K) → K.eq key.now q ≡ false
        → items_at K.eq map.new q ≡ items_at K.eq map.old q }
{
    match map.swap_remove(key) {
        Some(items) => items,
        None => Vec::new(alloc),
    }
}

// Gives a key these items in place of its own.
fn set_items<K: Copy + Eq + Hash, T: Drop>(
    map: &mut IndexMap<K, Vec<T>>,
    key: &K,
    items: Vec<T>,
) -> Result<(), NoMemory>
    ensures set { OnOk result ((q : K) → K.eq key.now q ≡ true
        → items_at K.eq map.new q ≡ items.items) }
    ensures others { OnOk result ((q : K) → K.eq key.now q ≡ false
        → items_at K.eq map.new q ≡ items_at K.eq map.old q) }
{
    map.insert(*key, items)?;
    Ok(())
}

/// Adds an item at the end of those of a key.
pub fn add_item<K: Copy + Eq + Hash, T: Drop>(
    alloc: Global,
    map: &mut IndexMap<K, Vec<T>>,
    key: &K,
    item: T,
) -> Result<(), NoMemory>
    ensures added { OnOk result ((q : K) → K.eq key.now q ≡ true
        → items_at K.eq map.new q ≡ items_at K.eq map.old key.now ++ item ∷ []) }
    ensures others { OnOk result ((q : K) → K.eq key.now q ≡ false
        → items_at K.eq map.new q ≡ items_at K.eq map.old q) }
{
    let mut items = take_items(alloc, map, key);
    items.push(item)?;
    set_items(map, key, items)
}
