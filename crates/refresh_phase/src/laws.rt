ghost use Rattle.refresh_phase.specs.Laws.{BuildsBeginAsKept, KeptGroupsHaveTheirLists};
ghost use Rattle.refresh_phase.specs.Values.{ValueLaws};

use list_reuse::{lists_of_a_build_are_kept, refreshed_values_are_present};
use model_laws::{lists_ignore_order, present_entries_are_found, some_have_distinct_ids};

/// The ranks of a build, with the lists of their groups, are kept from then on.
pub fn builds_begin_as_kept()
    ensures { BuildsBeginAsKept }
{
    lists_of_a_build_are_kept();
    present_entries_are_found();
}

/// A rank since a build has the groups of the build, at their present positions and with their present lists.
pub fn kept_groups_have_their_lists()
    ensures { KeptGroupsHaveTheirLists }
{}

// The laws of present values.
pub(crate) fn value_laws()
    ensures { ValueLaws }
{
    lists_ignore_order();
    present_entries_are_found();
    refreshed_values_are_present();
    some_have_distinct_ids();
}
