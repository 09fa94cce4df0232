ghost use Rattle.std.specs.Prelude.{◌≡◌, ◌^◌, ◌<◌, ◌≤◌, ◌+◌, IfOk, All, length, map, take, drop};
ghost use Rattle.std.specs.List.{list_any};
ghost use Rattle.std.specs.List.Sorted.{IsNonDecreasing};
ghost use Rattle.pf_geom.specs.Octant.{cell_at};
ghost use Rattle.pf_model.specs.Totals.{IsTotals};
ghost use Rattle.pf_model.specs.Interaction.{is_cell};
ghost use Rattle.pf_model.specs.Sufficiency.{entry_moment, moment_together};
ghost use Rattle.cell_runs.specs.Finding.{cell_of_key};
ghost use Rattle.group_lists.specs.Gathering.{IsSentTo};
ghost use Rattle.group_lists.specs.Keyed.{item_position, item_key, item_sums};
ghost use Rattle.group_lists.specs.Indexed.{IsKeptOf};

use crate::item_index::ItemIndex;
use crate::kept_source::KeptSource;
use crate::key_order::{items_in_order, key_order, places_of};
use cell_runs::cell_key;
use model_laws::{
    entries_join_their_moments, lists_are_short, lists_hold_their_entries, lists_merge,
    moments_join_in_any_order, some_have_distinct_ids,
};
use pf_geom::{Cell, corner, key_of};
use pf_model::{Entry, EssTree, MOST_PARTICLES, Moment, Terms};
use pf_num::OutOfMemory;
use std::alloc::Global;
use std::marker::{Model, PhantomData};

// An essential tree with its items in the order of the Morton curve, so that those in a cell stand together, the
// keys by which they are found, the places at which they were sent, and the moments of the first items for each count
// of them.
#[derive(Drop)]
pub(crate) struct KeyedTree<T: Terms> {
    pub src: u32,
    pub dst: u32,
    pub items: Vec<Entry>,
    pub keys: Vec<u128>,
    pub places: Vec<u32>,
    pub sums: Vec<Moment>,
    pub terms: PhantomData<T>,
}

impl<T: Terms> Model for KeyedTree<T> {
    ghost use Rattle.pf_model.specs.EssentialTree.{Essential};
    ghost use Rattle.group_lists.specs.Keyed.{IsKeyed};

    ghost Value = { Essential };

    ghost view = { λ t. record { src = t.src; dst = t.dst; items = t.items.items } };

    ghost invariant = { λ t. IsKeyed T.theta T.grid T.particles
        (record { src = t.src; dst = t.dst; items = t.items.items }) t.keys.items t.places.items t.sums.items };
}

impl<T: Terms> KeyedTree<T> {
    // Puts the items of an essential tree into the order of their keys.
    pub fn of(alloc: Global, tree: EssTree<T>) -> Result<KeyedTree<T>, OutOfMemory>
        ensures src { IfOk result (λ keyed. keyed.src ≡ tree.src) }
        ensures sent { IfOk result (λ keyed. IsSentTo T.theta T.grid T.particles tree.dst keyed) }
    {
        lists_are_short();
        lists_merge();
        some_have_distinct_ids();
        let order = key_order(alloc, &tree.items)?;
        let items = items_in_order(alloc, &tree.items, &order)?;
        let keys = keys_of(alloc, &items)?;
        let places = places_of(alloc, &order)?;
        let sums = sums_of(alloc, &items)?;
        Ok(KeyedTree {
            src: tree.src,
            dst: tree.dst,
            items,
            keys,
            places,
            sums,
            terms: PhantomData,
        })
    }

    // What is kept of the tree when all lists are whole.
    pub fn kept(self, alloc: Global) -> Result<KeptSource, OutOfMemory>
        ensures { IfOk result (IsKeptOf T.theta T.grid T.particles self) }
    {
        lists_hold_their_entries();
        some_have_distinct_ids();
        let index = ItemIndex::of_items(alloc, self.keys, &self.items)?;
        Ok(KeptSource {
            src: self.src,
            items: self.items,
            places: self.places,
            index,
        })
    }

    // The moment of `len` items from place `first` on.
    pub fn moment(&self, first: u32, len: u32) -> Moment
        requires within { first + len ≤ length self.now.items }
        requires limits { IsTotals (moment_together (take len (drop first self.now.items))) }
        ensures { result ≡ moment_together (take len (drop first self.now.items)) }
    {
        entries_join_their_moments();
        let before = self.sums[first as usize];
        let through = self.sums[(first + len) as usize];
        through.without(before)
    }

    // Whether an item has its place in a cell.
    pub fn has_items_in(&self, cell: Cell) -> bool
        ensures { result ≡ list_any (λ item. is_cell cell (cell_at (item_position item) cell.level)) self.now.items }
    {
        has_key_in(&self.keys, cell)
    }
}

// Whether one of some ascending keys is in a cell.
fn has_key_in(keys: &[u128], cell: Cell) -> bool
    requires { IsNonDecreasing keys.now }
    ensures { result ≡ list_any (λ key. is_cell cell (cell_of_key key cell.level)) keys.now }
{
    let place = keys.partition_point(|key| cell_key(*key, cell.level) < cell.key);
    match keys.get(place) {
        Some(key) => cell_key(*key, cell.level) == cell.key,
        None => false,
    }
}

// The key of an item: that of the corner of its cell, or of the particle.
pub(crate) fn item_key(item: &Entry) -> u128
    ensures value { result ≡ item_key item.now }
    ensures fits { result < 2 ^ 90 }
{
    match item {
        Entry::Cell(cell, _) => key_of(corner(*cell)),
        Entry::One(body) => key_of(body.at),
    }
}

// The keys of the items.
fn keys_of(alloc: Global, items: &[Entry]) -> Result<Vec<u128>, OutOfMemory>
    ensures value { IfOk result (λ keys. keys.items ≡ map item_key items.now) }
    ensures fits { IfOk result (λ keys. All (λ key. key < 2 ^ 90) keys.items) }
{
    let mut keys = Vec::with_capacity(alloc, items.len())?;
    for item in items {
        keys.push(item_key(item))?;
    }
    Ok(keys)
}

// The moments of the first items, for each count of them from none to all.
fn sums_of(alloc: Global, items: &[Entry]) -> Result<Vec<Moment>, OutOfMemory>
    requires { (moment_together items.now).count ≤ MOST_PARTICLES }
    ensures { IfOk result (λ sums. sums.items ≡ item_sums items.now) }
{
    moments_join_in_any_order();
    entries_join_their_moments();
    let mut sums = Vec::with_capacity(alloc, items.len() + 1)?;
    let mut so_far = Moment::none();
    sums.push(so_far)?;
    for item in items {
        so_far = so_far.merge(entry_moment(item));
        sums.push(so_far)?;
    }
    Ok(sums)
}

// The moment of what an entry stands for.
fn entry_moment(entry: &Entry) -> Moment
    ensures { result ≡ entry_moment entry.now }
{
    match entry {
        Entry::Cell(_, moment) => *moment,
        Entry::One(body) => Moment::of_one(body),
    }
}
