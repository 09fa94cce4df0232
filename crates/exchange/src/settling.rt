ghost use Rattle.std.specs.Prelude.{◌≡◌, IfOk, IsPermutation};
ghost use Rattle.pf_model.specs.Particles.{AreBodies, HaveDistinctIds};
ghost use Rattle.exchange.specs.States.{AreInIdOrder, joined, settled};

use crate::parcel::Parcel;
use crate::rank_state::RankState;
use model_laws::{ascending_is_by_id, distinct_ids_ignore_order};
use order_laws::distinct_keys_rise;
use pf_model::Body;
use pf_num::OutOfMemory;
use std::alloc::Global;

/// Joins what has come to what is left, by id: one parcel of every other rank, in any order. The bodies are
/// together at most `MOST_PARTICLES`, of distinct ids.
pub fn settle(_alloc: Global, s: RankState, parcels: Vec<Parcel>) -> Result<RankState, OutOfMemory>
    requires { AreBodies (joined s.bodies parcels.items) }
    ensures value { IfOk result (λ after. after ≡ settled s parcels.items) }
    ensures same { IfOk result (λ after. IsPermutation (joined s.bodies parcels.items) after.bodies) }
{
    ascending_is_by_id();
    let RankState { rank, mut bodies } = s;
    for parcel in &parcels {
        bodies.extend_from_slice(&parcel.bodies)?;
    }
    sort_by_id(&mut bodies);
    Ok(RankState { rank, bodies })
}

// Puts bodies into the order of their ids.
fn sort_by_id(bodies: &mut [Body])
    requires { HaveDistinctIds bodies.old }
    ensures same { IsPermutation bodies.old bodies.new }
    ensures in_order { AreInIdOrder bodies.new }
{
    distinct_ids_ignore_order();
    distinct_keys_rise::<Body>();
    bodies.sort_unstable_by_key(|body| body.id);
}
