// The laws, each the contract of a function that does nothing when it runs. A caller whose proof needs a law calls its
// function.

ghost use Rattle.run_laws.specs.PullKernel.{PullKernelsGiveDistances};
ghost use Rattle.run_laws.specs.ThinBuild.{OrdersByIdStay, ThinBuildsAreSo};
ghost use Rattle.run_laws.specs.ThinForces.{PullsAddUp};
ghost use Rattle.run_laws.specs.ThinText.{ThinTextsAreThinDumps};
ghost use Rattle.run_laws.specs.ThinLaws.{ListsWithoutCellsAreParticles, FewParticlesAreOneGroup};

use model_laws::{
    ascending_is_by_id, group_levels_are_least, lists_of_near_are_particles,
    nothing_passes_at_zero, orders_by_id_ascend, orders_by_id_have_distinct_ids,
    orders_by_id_keep_particles, particles_of_one_id_are_one,
};
use pf_geom::positions_have_cells;
use run_model::lone_ranks_build_so;

/// Where theta is 0, the list of any box is all particles, by id.
pub fn lists_without_cells_are_particles()
    ensures { ListsWithoutCellsAreParticles }
{
    lists_of_near_are_particles();
    nothing_passes_at_zero();
}

/// Particles that are no more than the limit are one group, whose cell is the cube.
pub fn few_particles_are_one_group()
    ensures { FewParticlesAreOneGroup }
{
    group_levels_are_least();
    positions_have_cells();
}

/// A pair of the kernel that adds up how far away others lie has no fault, and gives how far the item lies.
pub fn pull_kernels_give_distances()
    ensures { PullKernelsGiveDistances }
{}

/// The order by ids of what stands in this order already is itself.
pub fn orders_by_id_stay()
    ensures { OrdersByIdStay }
{
    ascending_is_by_id();
    orders_by_id_ascend();
}

/// At the build of one rank where theta is 0 and the particles are no more than the limit of a group, every list is all
/// particles, and the rank has these counts.
pub fn thin_builds_are_so()
    ensures { ThinBuildsAreSo }
{
    lone_ranks_build_so();
    lists_without_cells_are_particles();
    few_particles_are_one_group();
}

/// By a list of particles, this kernel gives one of them how far they lie away all together, and no fault.
pub fn pulls_add_up()
    ensures { PullsAddUp }
{
    particles_of_one_id_are_one();
}

/// The text of step 0 of a thin run is the thin dump.
pub fn thin_texts_are_thin_dumps()
    ensures { ThinTextsAreThinDumps }
{
    lone_ranks_build_so();
    thin_builds_are_so();
    pulls_add_up();
    orders_by_id_stay();
    orders_by_id_have_distinct_ids();
    orders_by_id_keep_particles();
}
