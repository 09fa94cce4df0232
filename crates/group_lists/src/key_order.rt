ghost use Rattle.std.specs.Prelude.{◌≡◌, ◌<◌, ◌≤◌, IfOk, All, IsPermutation, length, map, slice_index_or};
ghost use Rattle.std.specs.List.{range_with_len};
ghost use Rattle.std.specs.List.Sorted.{IsNonDecreasingBy};
ghost use Rattle.pf_model.specs.declared.entry.Entry.{Entry};
ghost use Rattle.group_lists.specs.Keyed.{item_key};

use crate::keyed_tree::item_key;
use pf_model::{Entry, MOST_PARTICLES};
use pf_num::OutOfMemory;
use std::alloc::Global;

// An item's key, and its place.
#[derive(Clone, Copy)]
pub(crate) struct KeyPlace {
    pub key: u128,
    pub place: u32,
}

// The items' keys and their places, by ascending key.
pub(crate) fn key_order(alloc: Global, items: &[Entry]) -> Result<Vec<KeyPlace>, OutOfMemory>
    requires { length items.now ≤ MOST_PARTICLES }
    ensures each_once { IfOk result (λ order.
        IsPermutation (range_with_len 0 (length items.now)) (map (λ o. o.place) order.items)) }
    ensures within { IfOk result (λ order. All (λ o. o.place < length items.now) order.items) }
    ensures keyed { IfOk result (λ order. All (λ o. (item : Entry) →
        o.key ≡ item_key (slice_index_or items.now o.place item)) order.items) }
    ensures ascending { IfOk result (λ order. IsNonDecreasingBy (λ o. o.key) order.items) }
{
    let mut order = Vec::with_capacity(alloc, items.len())?;
    for (place, item) in items.iter().enumerate() {
        order.push(KeyPlace {
            key: item_key(item),
            place: place as u32,
        })?;
    }
    order.sort_unstable_by_key(|o| o.key);
    Ok(order)
}

// The items in an order of their places.
pub(crate) fn items_in_order(
    alloc: Global,
    items: &[Entry],
    order: &[KeyPlace],
) -> Result<Vec<Entry>, OutOfMemory>
    requires { All (λ o. o.place < length items.now) order.now }
    ensures { IfOk result (λ moved. (item : Entry) →
        moved.items ≡ map (λ o. slice_index_or items.now o.place item) order.now) }
{
    let mut moved = Vec::with_capacity(alloc, order.len())?;
    for o in order {
        moved.push(items[o.place as usize])?;
    }
    Ok(moved)
}

// The places of an order.
pub(crate) fn places_of(alloc: Global, order: &[KeyPlace]) -> Result<Vec<u32>, OutOfMemory>
    ensures { IfOk result (λ places. places.items ≡ map (λ o. o.place) order.now) }
{
    let places = order.iter().map(|o| o.place).collect(alloc)?;
    Ok(places)
}
