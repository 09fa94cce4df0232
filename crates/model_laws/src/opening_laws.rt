// The laws of the opening test, each the contract of a function that does nothing when it runs. A caller whose
// proof needs a law calls its function.

ghost use Rattle.model_laws.specs.OpeningLaws.{CellsPassForBoxesInside, CellsInsidePass, PassingCellsLieApart};
ghost use Rattle.model_laws.specs.OpeningLaws.{NothingPassesAtZero};

use pf_geom::{
    cells_nest, gaps_grow_as_boxes_shrink, gaps_grow_as_cells_shrink, gaps_vanish_where_shared,
};

/// A cell that passes the opening test for a box passes it for every box inside that box.
pub fn cells_pass_for_boxes_inside()
    ensures { CellsPassForBoxesInside }
{
    gaps_grow_as_boxes_shrink();
}

/// A cell inside a cell that passes the opening test passes it too.
pub fn cells_inside_pass()
    ensures { CellsInsidePass }
{
    cells_nest();
    gaps_grow_as_cells_shrink();
}

/// A cell that passes the opening test has a gap to the box, and shares no position with it.
pub fn passing_cells_lie_apart()
    ensures { PassingCellsLieApart }
{
    gaps_vanish_where_shared();
}

/// At the opening angle 0 no cell passes the opening test.
pub fn nothing_passes_at_zero()
    ensures { NothingPassesAtZero }
{}
