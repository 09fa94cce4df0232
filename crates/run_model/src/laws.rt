// The laws of the definitions, each the contract of a function that does nothing when it runs. A caller
// whose proof needs a law calls its function.

ghost use Rattle.run_model.specs.RunLaws.{StatesStandBeforeTheEnd, StatesKeepTheParticles, StatesKeepTheLimits, RunsIgnoreTheOrderRead, EachIsInOneEntryOfEachList, GridsChangeOwnersAlone, LoneRanksBuildSo};

use model_laws::{
    each_is_in_one_entry, group_cells_are_ordered, groups_of_one_are_one_place,
    kept_lists_begin_as_lists, lone_ranks_have_all, orders_by_id_are_one,
    orders_by_id_have_distinct_ids, owners_are_ranks, particles_of_one_id_are_one,
};

/// A state exists exactly for the steps before the end of a run.
pub fn states_stand_before_the_end()
    ensures { StatesStandBeforeTheEnd }
{}

/// No step loses a particle, or changes its place in the order by ids.
pub fn states_keep_the_particles()
    ensures { StatesKeepTheParticles }
{}

/// No step takes a particle out of its limits.
pub fn states_keep_the_limits()
    ensures { StatesKeepTheLimits }
{}

/// The order in which particles are read changes nothing.
pub fn runs_ignore_the_order_read()
    ensures { RunsIgnoreTheOrderRead }
{
    orders_by_id_are_one();
}

/// Each particle is a member of exactly one entry of each group's list.
pub fn each_is_in_one_entry_of_each_list()
    ensures { EachIsInOneEntryOfEachList }
{
    orders_by_id_have_distinct_ids();
    each_is_in_one_entry();
}

/// For groups of one particle, the grid changes owners alone.
pub fn grids_change_owners_alone()
    ensures { GridsChangeOwnersAlone }
{
    groups_of_one_are_one_place();
    group_cells_are_ordered();
    owners_are_ranks();
}

/// Where there is one rank, it has all particles and receives nothing, and each list is over all of them.
pub fn lone_ranks_build_so()
    ensures { LoneRanksBuildSo }
{
    lone_ranks_have_all();
    kept_lists_begin_as_lists();
    particles_of_one_id_are_one();
}
