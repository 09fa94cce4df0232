// The laws of lower crates that proofs here stand on, by what they are about. Each function does nothing when it runs.

ghost use Rattle.rank_step.specs.Laws.{ReadLaws, DealLaws, OwnLaws, NowLaws, BuildLaws, RowLaws};

use force_phase::IdRow;
use model_laws::{
    all_ranks_have_all, ascending_ids_differ, ascending_ids_increase, ascending_is_by_id,
    boxes_ignore_order, distinct_ids_ignore_order, groups_ignore_order, kept_lists_begin_as_lists,
    present_entries_are_found, ranks_in_turn_have_all, some_ids_ascend_too,
};
use order_laws::{
    distinct_keys_rise, maps_keep_orders, parts_by_key_are_all, tests_keep_what_passes,
};
use pf_model::Body;

// Of particles that are sorted by their ids.
pub(crate) fn read_laws()
    ensures { ReadLaws }
{
    distinct_ids_ignore_order();
    distinct_keys_rise::<Body>();
    ascending_ids_increase();
    ascending_is_by_id();
}

// Of particles that are dealt out by their places.
pub(crate) fn deal_laws()
    ensures { DealLaws }
{
    parts_by_key_are_all::<(usize, Body)>();
    ascending_ids_increase();
}

// Of what each rank owns, by id.
pub(crate) fn own_laws()
    ensures { OwnLaws }
{
    ascending_ids_increase();
    some_ids_ascend_too();
    ascending_is_by_id();
}

// Of particles that are found by their ids.
pub(crate) fn now_laws()
    ensures { NowLaws }
{
    ascending_ids_increase();
    ascending_ids_differ();
    present_entries_are_found();
}

// Of the groups of a build and their lists.
pub(crate) fn build_laws()
    ensures { BuildLaws }
{
    now_laws();
    groups_ignore_order();
    boxes_ignore_order();
    all_ranks_have_all();
    ranks_in_turn_have_all();
    tests_keep_what_passes::<Body>();
    kept_lists_begin_as_lists();
}

// Of rows of forces by id.
pub(crate) fn row_laws()
    ensures { RowLaws }
{
    ascending_ids_increase();
    ascending_is_by_id();
    maps_keep_orders::<Body, IdRow>();
}
