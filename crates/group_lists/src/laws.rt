// The laws of pieces, each the contract of a function that does nothing when it runs. A caller whose proof needs a
// law calls its function.

ghost use Rattle.group_lists.specs.PieceLaws.{PiecesMakeLists, PiecesAreInOrder, CommonPiecesAreOccupied};
ghost use Rattle.group_lists.specs.PieceLaws.{GroupsAreServed, ItemsMakePieces, ItemsLieByPlace};

use cell_runs::{runs_hold_each_place, runs_rise};
use model_laws::{
    boxes_lie_in_domains, cells_pass_for_boxes_inside, distinct_ids_ignore_order,
    entries_add_up_their_items, entries_join_in_any_order, entry_order_is_strict, levels_are_least,
    lists_are_short, lists_hold_first_cells, lists_hold_near_particles, lists_hold_their_entries,
    lists_ignore_order, lists_merge, merged_lists_share_cells, moments_keep_their_limits,
    one_rank_has_its_own, particles_of_one_id_are_one, ranks_have_their_own,
    some_have_distinct_ids,
};
use order_laws::{
    different_are_few, different_in_any_order, tests_keep_permutations, tests_keep_spans,
    tests_keep_what_passes,
};
use pf_geom::{
    cells_of_a_position_nest, corners_lie_inside, positions_have_cells, positions_share_lower_cells,
};
use pf_model::{Body, Entry};

// The list of a group with one source more is its list and the pieces, merged.
pub(crate) fn pieces_make_lists()
    ensures { PiecesMakeLists }
{
    lists_merge();
    merged_lists_share_cells();
    lists_ignore_order();
    ranks_have_their_own();
    one_rank_has_its_own();
    some_have_distinct_ids();
    distinct_ids_ignore_order();
}

// The pieces and the list of a group are short and in order, and any two of their cells have few members together.
pub(crate) fn pieces_are_in_order()
    ensures { PiecesAreInOrder }
{
    lists_hold_their_entries();
    lists_are_short();
    ranks_have_their_own();
    one_rank_has_its_own();
    some_have_distinct_ids();
    distinct_ids_ignore_order();
}

// The pieces that have a cell in common with a list are those in whose cell something stands.
pub(crate) fn common_pieces_are_occupied()
    ensures { CommonPiecesAreOccupied }
{
    cells_pass_for_boxes_inside();
    cells_of_a_position_nest();
    corners_lie_inside();
    positions_share_lower_cells();
    positions_have_cells();
    levels_are_least();
    lists_hold_their_entries();
    lists_hold_first_cells();
    lists_hold_near_particles();
    one_rank_has_its_own();
    some_have_distinct_ids();
    particles_of_one_id_are_one();
    tests_keep_what_passes::<Body>();
    entry_order_is_strict();
}

// The essential trees of a rank serve the boxes of its groups.
pub(crate) fn groups_are_served()
    ensures { GroupsAreServed }
{
    boxes_lie_in_domains();
}

// The pieces that runs of items make are the entries of the source's particles, each once.
pub(crate) fn items_make_pieces()
    ensures { ItemsMakePieces }
{
    cells_pass_for_boxes_inside();
    cells_of_a_position_nest();
    corners_lie_inside();
    positions_share_lower_cells();
    positions_have_cells();
    levels_are_least();
    lists_hold_their_entries();
    some_have_distinct_ids();
    entries_add_up_their_items();
    entries_join_in_any_order();
    tests_keep_permutations::<Entry>();
    tests_keep_spans::<Entry>();
    different_in_any_order::<Entry>();
    different_are_few::<Entry>();
    entry_order_is_strict();
    moments_keep_their_limits();
    runs_hold_each_place();
    runs_rise();
}

// An item has its place in an entry exactly where it lies in it.
pub(crate) fn items_lie_by_place()
    ensures { ItemsLieByPlace }
{
    cells_pass_for_boxes_inside();
    cells_of_a_position_nest();
    corners_lie_inside();
    positions_share_lower_cells();
    positions_have_cells();
    levels_are_least();
    lists_hold_their_entries();
    lists_hold_first_cells();
    some_have_distinct_ids();
}
