// The laws of exchange, each the contract of a function that does nothing when it runs. A caller whose proof
// needs a law calls its function.

ghost use Rattle.exchange.specs.ExchangeLaws.{EachRankHasItsOwn, EachParticleIsWithItsOwner, RanksTogetherHaveAll};

use crate::parcel::Parcel;
use crate::rank_state::RankState;
use model_laws::{
    distinct_ids_ignore_order, orders_by_id_are_one, orders_by_id_have_all,
    orders_by_id_have_distinct_ids, orders_by_id_keep_particles, owners_by_cuts_are_ranks,
    some_have_distinct_ids,
};
use order_laws::{parts_by_key_are_all, parts_keep_permutations, tests_keep_what_passes};
use pf_model::Body;

/// After all ranks left and settled, each has exactly what it owns of all particles.
pub fn each_rank_has_its_own()
    ensures { EachRankHasItsOwn }
{
    distinct_ids_ignore_order();
    orders_by_id_are_one();
    some_have_distinct_ids();
    parts_keep_permutations::<RankState, Body>();
    parts_keep_permutations::<Parcel, Body>();
}

/// So each particle is with its owner, once, and with no other rank.
pub fn each_particle_is_with_its_owner()
    ensures { EachParticleIsWithItsOwner }
{
    orders_by_id_have_distinct_ids();
    orders_by_id_keep_particles();
    some_have_distinct_ids();
    tests_keep_what_passes::<Body>();
}

/// And all ranks together have all particles, each once.
pub fn ranks_together_have_all()
    ensures { RanksTogetherHaveAll }
{
    owners_by_cuts_are_ranks();
    some_have_distinct_ids();
    parts_by_key_are_all::<Body>();
    orders_by_id_have_all();
    parts_keep_permutations::<u32, Body>();
}
