ghost use Rattle.std.specs.Prelude.{◌≡◌, ◌≤◌, IfOk, List, length, map};
ghost use Rattle.std.specs.List.Sorted.{IsNonDecreasing};
ghost use Rattle.pf_model.specs.declared.entry.Entry.{Entry};
ghost use Rattle.pf_model.specs.declared.entry.Entry.TheVariants.{One};
ghost use Rattle.pf_model.specs.Particle.{Particle};
ghost use Rattle.pf_model.specs.Particles.{HaveDistinctIds};
ghost use Rattle.pf_model.specs.Interaction.{is_cell};
ghost use Rattle.pf_model.specs.Sufficiency.{lies_in};
ghost use Rattle.morton_tree.specs.Tree.{IsInKeyOrder};
ghost use Rattle.cell_runs.specs.Finding.{cell_of_key};
ghost use Rattle.group_lists.specs.Keyed.{item_key};
ghost use Rattle.group_lists.specs.Listing.{IsSpanOf};
ghost use Rattle.group_lists.specs.Indexed.{IsIndexOf, AreIdsOf, HaveDistinctPlaces, LieByPlace, as_items};

use cell_runs::cell_key;
use morton_tree::Span;
use pf_geom::{Cell, key_of};
use pf_model::{Body, Entry, MOST_PARTICLES};
use pf_num::OutOfMemory;
use std::alloc::Global;

// A particle among items: its id, and its place.
#[derive(Clone, Copy)]
pub(crate) struct IdPlace {
    pub id: u32,
    pub place: u32,
}

// What finds items that stand in key order: their keys, and the particles among them by ascending id.
#[derive(Drop)]
pub(crate) struct ItemIndex {
    pub keys: Vec<u128>,
    pub ids: Vec<IdPlace>,
}

impl ItemIndex {
    // The index of items by their keys, which ascend.
    pub fn of_items(
        alloc: Global,
        keys: Vec<u128>,
        items: &[Entry],
    ) -> Result<ItemIndex, OutOfMemory>
        requires few { length items.now ≤ MOST_PARTICLES }
        requires keyed { keys.items ≡ map item_key items.now }
        requires ascending { IsNonDecreasing keys.items }
        requires distinct { HaveDistinctPlaces items.now }
        ensures { IfOk result (IsIndexOf items.now) }
    {
        let mut ids = Vec::new(alloc);
        for (place, item) in items.iter().enumerate() {
            if let Entry::One(body) = item {
                ids.push(IdPlace {
                    id: body.id,
                    place: place as u32,
                })?;
            }
        }
        ids.sort_unstable_by_key(|i| i.id);
        Ok(ItemIndex { keys, ids })
    }

    // The index of bodies in key order.
    pub fn of_bodies(alloc: Global, bodies: &[Body]) -> Result<ItemIndex, OutOfMemory>
        requires few { length bodies.now ≤ MOST_PARTICLES }
        requires ordered { IsInKeyOrder bodies.now }
        requires distinct { HaveDistinctIds bodies.now }
        ensures { IfOk result (IsIndexOf (as_items bodies.now)) }
    {
        let mut keys = Vec::with_capacity(alloc, bodies.len())?;
        let mut ids = Vec::with_capacity(alloc, bodies.len())?;
        for (place, body) in bodies.iter().enumerate() {
            keys.push(key_of(body.at))?;
            ids.push(IdPlace {
                id: body.id,
                place: place as u32,
            })?;
        }
        ids.sort_unstable_by_key(|i| i.id);
        Ok(ItemIndex { keys, ids })
    }

    // Where the items stand that lie in an entry.
    pub fn span_in(&self, entry: &Entry) -> Span
        requires few { length self.now.keys.items ≤ MOST_PARTICLES }
        requires ascending { IsNonDecreasing self.now.keys.items }
        ensures { (items : List Entry) → IsIndexOf items self.now → LieByPlace items entry.now
            → IsSpanOf (λ f. lies_in f entry.now) items result }
    {
        match entry {
            Entry::Cell(cell, _) => span_of_cell(&self.keys, *cell),
            Entry::One(body) => span_of_id(&self.ids, body.id),
        }
    }
}

// Where those of ascending keys stand that are in a cell.
fn span_of_cell(keys: &[u128], cell: Cell) -> Span
    requires few { length keys.now ≤ MOST_PARTICLES }
    requires ascending { IsNonDecreasing keys.now }
    ensures { IsSpanOf (λ key. is_cell cell (cell_of_key key cell.level)) keys.now result }
{
    let first = keys.partition_point(|key| cell_key(*key, cell.level) < cell.key);
    let end = keys.partition_point(|key| cell_key(*key, cell.level) <= cell.key);
    Span {
        first: first as u32,
        len: (end - first) as u32,
    }
}

// The place of the particle of an id, if there is one.
fn span_of_id(ids: &[IdPlace], id: u32) -> Span
    ensures { (items : List Entry) (p : Particle) → p.id ≡ id → AreIdsOf items ids.now → HaveDistinctPlaces items
        → IsSpanOf (λ f. lies_in f (One p)) items result }
{
    let at = ids.partition_point(|i| i.id < id);
    match ids.get(at) {
        Some(found) if found.id == id => Span {
            first: found.place,
            len: 1,
        },
        _ => Span { first: 0, len: 0 },
    }
}
