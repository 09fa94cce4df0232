// The laws of ids, each the contract of a function that does nothing when it runs. A caller whose
// proof needs a law calls its function.

ghost use Rattle.model_laws.specs.ParticleLaws.{ParticlesOfOneIdAreOne, DistinctIdsIgnoreOrder, SomeHaveDistinctIds};

/// Of particles with distinct ids, those with one id are one.
pub fn particles_of_one_id_are_one()
    ensures { ParticlesOfOneIdAreOne }
{}

/// The order of particles doesn't change that their ids are distinct.
pub fn distinct_ids_ignore_order()
    ensures { DistinctIdsIgnoreOrder }
{}

/// Some of the particles with distinct ids have distinct ids.
pub fn some_have_distinct_ids()
    ensures { SomeHaveDistinctIds }
{}
