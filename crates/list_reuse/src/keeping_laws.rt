// The laws of kept lists, each the contract of a function that does nothing when it runs. A caller whose proof needs
// a law calls its function.

ghost use Rattle.list_reuse.specs.KeepingLaws.{ListsOfABuildAreKept, RefreshedValuesArePresent};
ghost use Rattle.list_reuse.specs.KeepingLaws.{MovedBodiesArePresent};

use crate::laws::laws;
use model_laws::{kept_lists_begin_as_lists, present_entries_are_found, present_of_some_stay_some};
use order_laws::tests_keep_what_passes;
use pf_model::Body;

/// The lists of a build are kept lists.
pub fn lists_of_a_build_are_kept()
    ensures { ListsOfABuildAreKept }
{
    kept_lists_begin_as_lists();
    present_entries_are_found();
    tests_keep_what_passes::<Body>();
}

/// What a rank sends again are the present values of the items that it sent.
pub fn refreshed_values_are_present()
    ensures { RefreshedValuesArePresent }
{
    laws();
    present_of_some_stay_some();
    present_entries_are_found();
}

/// The bodies of an octree, moved, are the present ones of the build.
pub fn moved_bodies_are_present()
    ensures { MovedBodiesArePresent }
{
    present_entries_are_found();
}
