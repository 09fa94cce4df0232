// The laws by which essential trees suffice for interaction lists, each the contract of a function that
// does nothing when it runs. A caller whose proof needs a law calls its function.

ghost use Rattle.model_laws.specs.SufficiencyLaws.{ItemsLieInOneEntry, EntriesAddUpTheirItems, BoxesLieInDomains};

use crate::domain_laws::domain_boxes_hold_what_is_owned;
use crate::group_laws::boxes_are_least;
use crate::moment_laws::moments_ignore_order;
use crate::opening_laws::cells_pass_for_boxes_inside;
use pf_geom::{cells_of_a_position_nest, positions_have_cells, positions_share_lower_cells};

/// For a box inside a box, each item of the outer list lies in exactly one entry of the inner list.
pub fn items_lie_in_one_entry()
    ensures { ItemsLieInOneEntry }
{
    cells_pass_for_boxes_inside();
    cells_of_a_position_nest();
    positions_share_lower_cells();
    positions_have_cells();
}

/// The moment of an entry of the inner list is the sum over the items that lie in it.
pub fn entries_add_up_their_items()
    ensures { EntriesAddUpTheirItems }
{
    cells_pass_for_boxes_inside();
    cells_of_a_position_nest();
    positions_share_lower_cells();
    positions_have_cells();
    moments_ignore_order();
}

/// The box round particles of one rank lies inside its domain box.
pub fn boxes_lie_in_domains()
    ensures { BoxesLieInDomains }
{
    boxes_are_least();
    domain_boxes_hold_what_is_owned();
}
