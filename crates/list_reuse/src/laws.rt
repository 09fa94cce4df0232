// What the proofs of renewed lists know, as the contract of a function that does nothing when it runs.

ghost use Rattle.list_reuse.specs.KeepLaws.{Laws};

use model_laws::{
    all_ranks_have_all, boxes_lie_in_domains, distinct_ids_ignore_order, entries_join_in_any_order,
    first_cells_hold_their_members, kept_entries_add_up_items_of_some, levels_are_least,
    lists_hold_their_entries, moments_add_up, moments_ignore_order, particles_of_one_id_are_one,
    present_are_found, present_ignores_order, present_members_are_of_ranks, some_have_distinct_ids,
};
use order_laws::{tests_keep_permutations, tests_keep_what_passes};
use pf_model::{Body, Entry};

// The laws of lists, of what is present, and of moments.
pub(crate) fn laws()
    ensures { Laws }
{
    lists_hold_their_entries();
    levels_are_least();
    first_cells_hold_their_members();
    some_have_distinct_ids();
    particles_of_one_id_are_one();
    distinct_ids_ignore_order();
    moments_ignore_order();
    entries_join_in_any_order();
    present_are_found();
    present_ignores_order();
    kept_entries_add_up_items_of_some();
    boxes_lie_in_domains();
    moments_add_up();
    present_members_are_of_ranks();
    all_ranks_have_all();
    tests_keep_permutations::<Body>();
    tests_keep_permutations::<Entry>();
    tests_keep_what_passes::<Body>();
    tests_keep_what_passes::<Entry>();
}
