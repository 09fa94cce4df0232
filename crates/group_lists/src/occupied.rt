ghost use Rattle.std.specs.Prelude.{◌≡◌, ◌<◌, ◌≤◌, count_by};
ghost use Rattle.std.specs.List.{list_any};
ghost use Rattle.pf_geom.specs.Octant.{cell_at};
ghost use Rattle.pf_model.specs.Interaction.{is_cell};
ghost use Rattle.morton_tree.specs.Tree.{IsInKeyOrder};
ghost use Rattle.group_lists.specs.Keyed.{item_position};
ghost use Rattle.group_lists.specs.Pieces.{is_occupied};

use crate::keyed_tree::KeyedTree;
use pf_geom::{Cell, cell_of};
use pf_model::{Body, Entry, Terms};

// How many of the pieces have something of the own bodies or of an absorbed tree in their cell.
pub(crate) fn occupied_count<T: Terms>(
    pieces: &[Entry],
    bodies: &[Body],
    trees: &[KeyedTree<T>],
) -> usize
    requires { IsInKeyOrder bodies.now }
    ensures { result ≡ count_by (is_occupied bodies.now trees.now) pieces.now }
{
    let mut occupied = 0;
    for piece in pieces {
        if is_occupied(piece, bodies, trees) {
            occupied += 1;
        }
    }
    occupied
}

// Whether something of the own bodies or of an absorbed tree has its place in the cell of a piece.
fn is_occupied<T: Terms>(piece: &Entry, bodies: &[Body], trees: &[KeyedTree<T>]) -> bool
    requires { IsInKeyOrder bodies.now }
    ensures { result ≡ is_occupied bodies.now trees.now piece.now }
{
    match piece {
        Entry::Cell(cell, _) => has_bodies_in(bodies, *cell) || one_has_items_in(trees, *cell),
        Entry::One(_) => false,
    }
}

// Whether one of the bodies lies in a cell.
fn has_bodies_in(bodies: &[Body], cell: Cell) -> bool
    requires { IsInKeyOrder bodies.now }
    ensures { result ≡ list_any (λ j. is_cell cell (cell_at j.at cell.level)) bodies.now }
{
    let place = bodies.partition_point(|body| cell_of(body.at, cell.level).key < cell.key);
    match bodies.get(place) {
        Some(body) => cell_of(body.at, cell.level).key == cell.key,
        None => false,
    }
}

// Whether an item of one of the trees has its place in a cell.
fn one_has_items_in<T: Terms>(trees: &[KeyedTree<T>], cell: Cell) -> bool
    ensures { result ≡ list_any (λ tree.
        list_any (λ item. is_cell cell (cell_at (item_position item) cell.level)) tree.items) trees.now }
{
    for tree in trees {
        if tree.has_items_in(cell) {
            return true;
        }
    }
    false
}
