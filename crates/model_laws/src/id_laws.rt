// The laws of the order by ids, each the contract of a function that does nothing when it runs. A caller whose
// proof needs a law calls its function.

ghost use Rattle.model_laws.specs.IdLaws.{OrdersByIdAreOne, OrdersByIdHaveDistinctIds, OrdersByIdKeepParticles};
ghost use Rattle.model_laws.specs.IdLaws.{OrdersByIdHaveAll, OrdersByIdAscend, AscendingIsById, AscendingIdsDiffer};
ghost use Rattle.model_laws.specs.IdLaws.{AscendingIdsIncrease, SomeIdsAscendToo};

/// Particles of distinct ids have one order by ids.
pub fn orders_by_id_are_one()
    ensures { OrdersByIdAreOne }
{}

/// No id comes twice in the order by ids.
pub fn orders_by_id_have_distinct_ids()
    ensures { OrdersByIdHaveDistinctIds }
{}

/// The order by ids has the same particles.
pub fn orders_by_id_keep_particles()
    ensures { OrdersByIdKeepParticles }
{}

/// The order by ids has all of the particles.
pub fn orders_by_id_have_all()
    ensures { OrdersByIdHaveAll }
{}

/// The order by ids ascends.
pub fn orders_by_id_ascend()
    ensures { OrdersByIdAscend }
{}

/// Particles whose ids ascend are in the order by ids.
pub fn ascending_is_by_id()
    ensures { AscendingIsById }
{}

/// Ids that ascend differ.
pub fn ascending_ids_differ()
    ensures { AscendingIdsDiffer }
{}

/// Ids ascend exactly where they are strictly increasing numbers.
pub fn ascending_ids_increase()
    ensures { AscendingIdsIncrease }
{}

/// Of particles whose ids ascend those of some ascend too.
pub fn some_ids_ascend_too()
    ensures { SomeIdsAscendToo }
{}
