// The laws of groups, each the contract of a function that does nothing when it runs. A caller whose
// proof needs a law calls its function.

ghost use Rattle.model_laws.specs.GroupLaws.{GroupLevelsAreLeast, PositionsShareTheirGroup, MembersShareTheirGroup};
ghost use Rattle.model_laws.specs.GroupLaws.{GroupCellsAreOrdered, EachIsInOneGroup, GroupsIgnoreOrder};
ghost use Rattle.model_laws.specs.GroupLaws.{GroupsOfOneAreOnePlace, GroupsAreFew, BoxesAreLeast, BoxesIgnoreOrder};

use order_laws::{orders_are_short, rising_lists_are_one};
use pf_geom::{Cell, cells_of_a_position_nest, keys_are_distinct, positions_share_lower_cells};

/// The level of a position's group is the least at which its cell has few enough particles, or the deepest.
pub fn group_levels_are_least()
    ensures { GroupLevelsAreLeast }
{}

/// A position in the cell of a group has this cell as that of its own group.
pub fn positions_share_their_group()
    ensures { PositionsShareTheirGroup }
{
    positions_share_lower_cells();
}

/// The members of a particle's group are the particles with this group, itself among them.
pub fn members_share_their_group()
    ensures { MembersShareTheirGroup }
{
    positions_share_lower_cells();
}

/// The cells of groups are those of their particles, each once, in the order of their corners.
pub fn group_cells_are_ordered()
    ensures { GroupCellsAreOrdered }
{
    rising_lists_are_one::<Cell>();
    cells_of_a_position_nest();
    positions_share_lower_cells();
}

/// There are no more groups than particles.
pub fn groups_are_few()
    ensures { GroupsAreFew }
{
    orders_are_short::<Cell>();
}

/// Each particle lies in the cell of exactly one group.
pub fn each_is_in_one_group()
    ensures { EachIsInOneGroup }
{
    cells_of_a_position_nest();
    positions_share_lower_cells();
}

/// The order of particles changes no group but in the order of its members.
pub fn groups_ignore_order()
    ensures { GroupsIgnoreOrder }
{
    group_cells_are_ordered();
}

/// With the limit 1 a group is what lies at one place, and its box is this place.
pub fn groups_of_one_are_one_place()
    ensures { GroupsOfOneAreOnePlace }
{
    keys_are_distinct();
}

/// The box of particles is the least that holds each of them.
pub fn boxes_are_least()
    ensures { BoxesAreLeast }
{}

/// The order of particles changes nothing in their box.
pub fn boxes_ignore_order()
    ensures { BoxesIgnoreOrder }
{}
