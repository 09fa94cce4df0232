ghost use Rattle.std.specs.Prelude.{◌≡◌, ◌+◌, ◌*◌, ◌<◌, ◌≤◌, [], ◌∷◌, IfSome, OnOk, length};
ghost use Rattle.pf_model.specs.Totals.{IsTotals};
ghost use Rattle.pf_model.specs.EssentialTree.{limited_list};
ghost use Rattle.pf_model.specs.Sufficiency.{moment_together};
ghost use Rattle.group_lists.specs.Keyed.{IsServed, items_at, IsPieceOfRun};

use crate::keyed_tree::KeyedTree;
use crate::laws::items_make_pieces;
use crate::ordering::put_in_order;
use cell_runs::{CellRun, cell_key, find_runs};
use model_laws::{one_rank_has_its_own, some_have_distinct_ids};
use pf_geom::{Box3, Cell, DEEPEST, positions_have_cells};
use pf_model::{Entry, Steps, Terms, Theta};
use pf_num::OutOfMemory;
use std::sync::ledger::Ledger;

// The list of a box over the particles of one source, from the items of its essential tree, into `pieces`. Each run
// of items in one cell is an entry, with the moment of these items.
pub(crate) fn find_pieces<T: Terms, L: Ledger>(
    tree: &KeyedTree<T>,
    b: Box3,
    t: Theta,
    runs: &mut Vec<CellRun>,
    pieces: &mut Vec<Entry>,
    steps: &mut Steps<L>,
) -> Result<(), OutOfMemory>
    requires theta { t ≡ T.theta }
    requires served { IsServed T.grid T.particles tree.now.dst b }
    ensures pieces { OnOk result (pieces.new.items
        ≡ limited_list T.theta b T.grid T.particles (tree.now.src ∷ [])) }
    ensures tests { OnOk result (steps.new ≤ steps.old + (DEEPEST + 1) * length pieces.new.items) }
{
    items_make_pieces();
    one_rank_has_its_own();
    some_have_distinct_ids();
    find_runs(&tree.keys, b, t, runs, steps)?;
    pieces.clear();
    for run in runs.iter() {
        pieces.push(piece_of(tree, *run))?;
    }
    put_in_order(pieces);
    Ok(())
}

// The entry of a run of items: the cell at the run's level with the moment of the items, or the one item.
fn piece_of<T: Terms>(tree: &KeyedTree<T>, run: CellRun) -> Entry
    requires within { run.first + run.len ≤ length tree.now.items }
    requires some { 1 ≤ run.len }
    requires limits { IfSome run.level (λ level. (level ≤ DEEPEST)
        × IsTotals (moment_together (items_at run tree.now.items))) }
    ensures { IsPieceOfRun tree.now.items run run.level result }
{
    positions_have_cells();
    let first = run.first as usize;
    match run.level {
        Some(level) => {
            let key = cell_key(tree.keys[first], level);
            Entry::Cell(Cell { level, key }, tree.moment(run.first, run.len))
        }
        None => tree.items[first],
    }
}
