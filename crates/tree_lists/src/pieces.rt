ghost use Rattle.std.specs.Prelude.{◌≡◌, ◌+◌, ◌*◌, ◌≤◌, All, IfOk, length, map};
ghost use Rattle.morton_tree.specs.Tree.{IsOctree, IsUnmoved};
ghost use Rattle.tree_lists.specs.Pieces.{piece_of, IsRunAmong, ArePiecesOf, ArePieces};

use crate::piece::Piece;
use cell_runs::{CellRun, find_runs, runs_hold_each_place, runs_rise};
use model_laws::{first_cells_hold_their_members, levels_are_least};
use morton_tree::{Span, Tree};
use order_laws::tests_keep_spans;
use pf_geom::{Box3, DEEPEST, keys_fit};
use pf_model::{Body, Steps, Theta};
use pf_num::OutOfMemory;
use std::alloc::Global;
use std::sync::ledger::Ledger;

// Particles come after cells of every level.
const AFTER_CELLS: u32 = DEEPEST + 1;

// The pieces of a box over the bodies of a tree, in key order.
pub(crate) fn pieces_of<L: Ledger>(
    alloc: Global,
    tree: &Tree,
    b: Box3,
    t: Theta,
    runs: &mut Vec<CellRun>,
    steps: &mut Steps<L>,
) -> Result<Vec<Piece>, OutOfMemory>
    requires unmoved { IsUnmoved tree.now }
    ensures pieces { IfOk result (λ pieces. ArePieces t b tree.now.built pieces.items) }
    ensures tests { IfOk result (λ pieces. steps.new ≤ steps.old + (DEEPEST + 1) * length pieces.items) }
    ensures none { t.a ≡ 0 → steps.new ≡ steps.old }
    ensures tree { IsOctree tree.now }
{
    levels_are_least();
    first_cells_hold_their_members();
    keys_fit();
    runs_hold_each_place();
    runs_rise();
    tests_keep_spans::<Body>();
    let bodies = tree.bodies();
    find_runs(tree.keys(), b, t, runs, steps)?;
    pieces_for(alloc, bodies, runs)
}

// The pieces of cell runs over the positions of bodies.
fn pieces_for(alloc: Global, bodies: &[Body], runs: &[CellRun]) -> Result<Vec<Piece>, OutOfMemory>
    requires { All (IsRunAmong (length bodies.now)) runs.now }
    ensures { IfOk result (λ pieces. ArePiecesOf bodies.now runs.now pieces.items) }
{
    let mut pieces = Vec::with_capacity(alloc, runs.len())?;
    for run in runs {
        pieces.push(piece_of(*run, &bodies[run.first as usize]))?;
    }
    Ok(pieces)
}

// The piece of a cell run whose first body is this one.
fn piece_of(run: CellRun, body: &Body) -> Piece
    ensures { result ≡ piece_of run body.now }
{
    let place = match run.level {
        Some(level) => (level, run.first),
        None => (AFTER_CELLS, body.id),
    };
    Piece {
        place,
        span: Span {
            first: run.first,
            len: run.len,
        },
    }
}
