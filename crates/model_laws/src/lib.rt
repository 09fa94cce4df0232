// The laws of the method, by topic: of the definitions in pf_model, on which it stands.
#![tactic(auto)]

mod domain_laws;
mod group_laws;
mod id_laws;
mod list_laws;
mod merging_laws;
mod moment_laws;
mod opening_laws;
mod particle_laws;
mod reuse_laws;
mod sufficiency_laws;

pub use domain_laws::{
    all_ranks_have_all, boxes_by_cuts_hold_what_is_owned, coordinates_ascend,
    cuts_along_ignore_order, cuts_are_of_slabs_and_columns, cuts_ascend, cuts_ignore_order,
    domain_boxes_hold_what_is_owned, domains_ignore_order, essential_trees_ignore_order,
    lone_ranks_have_all, one_rank_has_its_own, orders_along_are_one, owners_are_ranks,
    owners_by_cuts_are_ranks, ranks_by_id_have_all, ranks_have_their_own, ranks_in_turn_have_all,
};
pub use group_laws::{
    boxes_are_least, boxes_ignore_order, each_is_in_one_group, group_cells_are_ordered,
    group_levels_are_least, groups_are_few, groups_ignore_order, groups_of_one_are_one_place,
    members_share_their_group, positions_share_their_group,
};
pub use id_laws::{
    ascending_ids_differ, ascending_ids_increase, ascending_is_by_id, orders_by_id_are_one,
    orders_by_id_ascend, orders_by_id_have_all, orders_by_id_have_distinct_ids,
    orders_by_id_keep_particles, some_ids_ascend_too,
};
pub use list_laws::{
    each_is_in_one_entry, entries_at_one_place_are_one, entries_have_levels,
    entries_stand_by_place, entry_order_is_strict, first_cells_hold_their_members,
    levels_are_least, lists_are_short, lists_hold_first_cells, lists_hold_near_particles,
    lists_hold_their_entries, lists_ignore_order, lists_of_near_are_particles,
    particles_in_the_box_are_near,
};
pub use merging_laws::{lists_merge, merged_lists_share_cells};
pub use moment_laws::{
    entries_join_in_any_order, entries_join_their_moments, joined_moments_keep_their_limits,
    moments_add_up, moments_cancel, moments_ignore_order, moments_join_in_any_order,
    moments_keep_their_limits, sources_keep_their_limits,
};
pub use opening_laws::{
    cells_inside_pass, cells_pass_for_boxes_inside, nothing_passes_at_zero, passing_cells_lie_apart,
};
pub use particle_laws::{
    distinct_ids_ignore_order, particles_of_one_id_are_one, some_have_distinct_ids,
};
pub use reuse_laws::{
    kept_entries_add_up_items_of_some, kept_lists_begin_as_lists, present_are_found,
    present_entries_are_found, present_ignores_order, present_members_are_of_ranks,
    present_of_some_stay_some,
};
pub use sufficiency_laws::{
    boxes_lie_in_domains, entries_add_up_their_items, items_lie_in_one_entry,
};
