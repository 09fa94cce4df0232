ghost use Rattle.std.specs.Prelude.{◌≡◌, ◌<◌, List, Some, IfOk, length, slice_get};
ghost use Rattle.pf_geom.specs.Bounds.{Bounds};
ghost use Rattle.pf_model.specs.Particle.{Particle};
ghost use Rattle.pf_model.specs.Criterion.{Criterion};
ghost use Rattle.list_reuse.specs.Refreshing.{IsKeptOf, present_items};

use crate::refresh::Refresh;
use essential_tree::Sent;
use model_laws::{
    lists_hold_their_entries, moments_ignore_order, present_are_found, present_entries_are_found,
    some_have_distinct_ids,
};
use morton_tree::Tree;
use order_laws::tests_keep_what_passes;
use pf_model::{Body, Entry};
use pf_num::OutOfMemory;
use std::alloc::Global;

/// The items of an essential tree again, each with its present value: a cell with the moment of its members where they
/// are now, or the particle as it is now. `essential` gave what is kept of the tree, for this octree before it was
/// moved.
pub fn refreshed(alloc: Global, sent: &Sent, src: u32, tree: &Tree) -> Result<Refresh, OutOfMemory>
    requires { (t : Criterion) × (box : Bounds) × (items : List Entry) × IsKeptOf t box tree.now.built items sent.now }
    ensures src { IfOk result (λ r. r.src ≡ src) }
    ensures dst { IfOk result (λ r. r.dst ≡ sent.now.dst) }
    ensures values { IfOk result (λ r. (t : Criterion) (box : Bounds) (items : List Entry) →
        IsKeptOf t box tree.now.built items sent.now →
        r.values ≡ present_items t box tree.now.built tree.now.bodies items) }
{
    let mut values = Vec::with_capacity(alloc, sent.spans.len())?;
    for place in 0..sent.spans.len() {
        values.push(present_value(sent, tree, place))?;
    }
    Ok(Refresh {
        src,
        dst: sent.dst,
        values,
    })
}

// The present value of the item at a place.
fn present_value(sent: &Sent, tree: &Tree, place: usize) -> Entry
    requires kept { (t : Criterion) × (box : Bounds) × (items : List Entry) × IsKeptOf t box tree.now.built items sent.now }
    requires within { place < length sent.now.spans.items }
    ensures { (t : Criterion) (box : Bounds) (items : List Entry) → IsKeptOf t box tree.now.built items sent.now →
        slice_get (present_items t box tree.now.built tree.now.bodies items) place ≡ Some result }
{
    lists_hold_their_entries();
    some_have_distinct_ids();
    moments_ignore_order();
    present_are_found();
    present_entries_are_found();
    tests_keep_what_passes::<Body>();
    let span = sent.spans[place];
    let bodies = tree.bodies();
    match sent.cells.get(place) {
        Some(cell) => Entry::Cell(*cell, tree.moment(span)),
        None => Entry::One(bodies[span.first as usize]),
    }
}
