// The laws of lists over disjoint particles, each the contract of a function that does nothing when it
// runs. A caller whose proof needs a law calls its function.

ghost use Rattle.model_laws.specs.MergingLaws.{ListsMerge, MergedListsShareCells};

use crate::list_laws::{lists_hold_first_cells, lists_hold_near_particles};
use pf_geom::positions_have_cells;

/// The list over some particles and others is the lists over both, merged.
pub fn lists_merge()
    ensures { ListsMerge }
{
    lists_hold_first_cells();
    lists_hold_near_particles();
    positions_have_cells();
}

/// The list over some particles and others is as long as those over both, less the common cells.
pub fn merged_lists_share_cells()
    ensures { MergedListsShareCells }
{
    lists_merge();
}
