ghost use Rattle.std.specs.Prelude.{◌≡◌, ◌+◌, ◌*◌, ◌<◌, ◌≤◌, All, IfOk, IsPermutation, length, map};
ghost use Rattle.std.specs.Prelude.{slice_index_or};
ghost use Rattle.pf_geom.specs.Bounds.{Bounds};
ghost use Rattle.pf_geom.specs.Octant.{cell_at};
ghost use Rattle.pf_model.specs.declared.entry.Entry.{Entry};
ghost use Rattle.pf_model.specs.Criterion.{Criterion};
ghost use Rattle.pf_model.specs.Particle.{Particle};
ghost use Rattle.pf_model.specs.Interaction.{list_of};
ghost use Rattle.morton_tree.specs.Tree.{IsOctree, IsUnmoved};
ghost use Rattle.tree_lists.specs.Members.{AreSpansOf};
ghost use Rattle.tree_lists.specs.Pieces.{IsPieceOf, ArePieces, AreEntriesOf, IsInPlaceOrder};

use crate::piece::Piece;
use crate::pieces::pieces_of;
use cell_runs::{CellRun, cell_key};
use model_laws::{
    entries_at_one_place_are_one, entries_have_levels, entries_stand_by_place, levels_are_least,
    lists_hold_their_entries,
};
use morton_tree::{Span, Tree};
use pf_geom::{Box3, Cell, DEEPEST, positions_have_cells};
use pf_model::{Entry, Steps, Theta};
use pf_num::OutOfMemory;
use std::alloc::Global;
use std::sync::ledger::Ledger;

/// The interaction list of a box over the bodies of a tree, which hasn't moved, and for each entry the span of its
/// members. `runs` is room that many calls may share, whatever it held before.
pub fn list_over<L: Ledger>(
    alloc: Global,
    tree: &Tree,
    b: Box3,
    t: Theta,
    runs: &mut Vec<CellRun>,
    steps: &mut Steps<L>,
) -> Result<(Vec<Entry>, Vec<Span>), OutOfMemory>
    requires unmoved { IsUnmoved tree.now }
    ensures entries { IfOk result (λ r. r.0.items ≡ list_of t b tree.now.built) }
    ensures spans { IfOk result (λ r. AreSpansOf t b tree.now.built r.0.items r.1.items) }
    ensures tests { IfOk result (λ r. steps.new ≤ steps.old + (DEEPEST + 1) * length r.0.items) }
    ensures none { t.a ≡ 0 → steps.new ≡ steps.old }
    ensures tree { IsOctree tree.now }
{
    entries_at_one_place_are_one();
    entries_have_levels();
    entries_stand_by_place();
    lists_hold_their_entries();
    let mut pieces = pieces_of(alloc, tree, b, t, runs, steps)?;
    put_in_order(&mut pieces);
    let entries = entries_of(alloc, tree, &pieces)?;
    let spans = spans_of(alloc, &pieces)?;
    Ok((entries, spans))
}

// Puts pieces into the order of their entries in lists.
fn put_in_order(pieces: &mut Vec<Piece>)
    ensures same { IsPermutation pieces.old.items pieces.new.items }
    ensures ordered { IsInPlaceOrder pieces.new.items }
{
    pieces.sort_unstable_by_key(|piece| piece.place);
}

// The entries of pieces of a tree, in their order.
fn entries_of(alloc: Global, tree: &Tree, pieces: &[Piece]) -> Result<Vec<Entry>, OutOfMemory>
    requires unmoved { IsUnmoved tree.now }
    requires inside { All (λ q. q.span.first + q.span.len ≤ length tree.now.built) pieces.now }
    requires some { All (λ q. 1 ≤ q.span.len) pieces.now }
    ensures { (t : Criterion) (box : Bounds) → All (λ q. (e : Entry) × IsPieceOf t box tree.now.built e q) pieces.now
        → IfOk result (λ entries. AreEntriesOf t box tree.now.built entries.items pieces.now) }
{
    let mut entries = Vec::with_capacity(alloc, pieces.len())?;
    for piece in pieces {
        entries.push(entry_of(tree, *piece))?;
    }
    Ok(entries)
}

// The entry of a piece of a tree.
fn entry_of(tree: &Tree, piece: Piece) -> Entry
    requires unmoved { IsUnmoved tree.now }
    requires some { 1 ≤ piece.span.len }
    requires inside { piece.span.first + piece.span.len ≤ length tree.now.built }
    ensures { (t : Criterion) (box : Bounds) (e : Entry) → IsPieceOf t box tree.now.built e piece → result ≡ e }
{
    levels_are_least();
    let first = piece.span.first as usize;
    let (level, _) = piece.place;
    if level <= DEEPEST {
        Entry::Cell(cell_at(tree, first, level), tree.moment(piece.span))
    } else {
        Entry::One(tree.bodies()[first])
    }
}

// The cell at a level of the body at a place of a tree, by the key that the tree keeps of it.
fn cell_at(tree: &Tree, place: usize, level: u32) -> Cell
    requires inside { place < length tree.now.built }
    requires level { level ≤ DEEPEST }
    ensures { (j : Particle) → result ≡ cell_at (slice_index_or tree.now.built place j).at level }
{
    positions_have_cells();
    let keys = tree.keys();
    Cell {
        level,
        key: cell_key(keys[place], level),
    }
}

// The spans of pieces.
fn spans_of(alloc: Global, pieces: &[Piece]) -> Result<Vec<Span>, OutOfMemory>
    ensures { IfOk result (λ spans. spans.items ≡ map (λ q. q.span) pieces.now) }
{
    Ok(pieces.iter().map(|piece| piece.span).collect(alloc)?)
}
