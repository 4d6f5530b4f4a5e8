//! Equal copies of lists and of maps.
ghost use Rattle.std.specs.Prelude.{◌≡◌, IfOk};

use ps_objects::{Duplicate, NoMemory};
use std::alloc::Global;
use std::collections::BTreeMap;

/// A map with the same entries.
#[tactic(auto, using(crate::proofs::Ordered::inserted_next))]
pub fn copy_map<K: Ord + Drop + Duplicate, V: Drop + Duplicate>(
    alloc: Global,
    map: &BTreeMap<K, V>,
) -> Result<BTreeMap<K, V>, NoMemory>
    ensures { IfOk result (λ copy. copy.entries ≡ map.now.entries) }
{
    let mut copy = BTreeMap::new(alloc);
    for (key, value) in map.iter() {
        copy.insert(key.duplicate()?, value.duplicate()?)?;
    }
    Ok(copy)
}

/// A list with the same items.
pub(crate) fn copy_items<T: Drop + Duplicate>(items: &Vec<T>) -> Result<Vec<T>, NoMemory>
    ensures { IfOk result (λ copy. copy.items ≡ items.now.items) }
{
    let mut copy = Vec::new(*items.allocator());
    for item in items.as_slice() {
        copy.push(item.duplicate()?)?;
    }
    Ok(copy)
}
