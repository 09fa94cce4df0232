// The laws of kept lists, each the contract of a function that does nothing when it runs. A caller whose
// proof needs a law calls its function.

ghost use Rattle.model_laws.specs.ReuseLaws.{KeptListsBeginAsLists, PresentOfSomeStaySome};
ghost use Rattle.model_laws.specs.ReuseLaws.{PresentIgnoresOrder, PresentAreFound, PresentEntriesAreFound};
ghost use Rattle.model_laws.specs.ReuseLaws.{PresentMembersAreOfRanks, KeptEntriesAddUpItemsOfSome};

use crate::domain_laws::ranks_have_their_own;
use crate::moment_laws::moments_ignore_order;
use crate::opening_laws::cells_pass_for_boxes_inside;
use pf_geom::{cells_of_a_position_nest, positions_have_cells, positions_share_lower_cells};

/// At the build a kept list is the list.
pub fn kept_lists_begin_as_lists()
    ensures { KeptListsBeginAsLists }
{}

/// What is present of some particles is so among what is present of all.
pub fn present_of_some_stay_some()
    ensures { PresentOfSomeStaySome }
{}

/// No order changes what is present.
pub fn present_ignores_order()
    ensures { PresentIgnoresOrder }
{}

/// The particles that are present are those found by their ids.
pub fn present_are_found()
    ensures { PresentAreFound }
{}

/// An entry that is a particle is now the particle with its id, among whatever particles this one is.
pub fn present_entries_are_found()
    ensures { PresentEntriesAreFound }
{}

/// The present members of an entry over some ranks are those over each of them in turn.
pub fn present_members_are_of_ranks()
    ensures { PresentMembersAreOfRanks }
{
    ranks_have_their_own();
}

/// The present members of an entry of the inner list that are among some of the particles have the moment of the
/// present items over these that lie in it.
pub fn kept_entries_add_up_items_of_some()
    ensures { KeptEntriesAddUpItemsOfSome }
{
    cells_pass_for_boxes_inside();
    cells_of_a_position_nest();
    positions_share_lower_cells();
    positions_have_cells();
    moments_ignore_order();
}
