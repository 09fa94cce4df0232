ghost use Rattle.std.specs.Prelude.{◌≡◌, IfOk, map};
ghost use Rattle.std.specs.List.Sorted.{IsStrictlyIncreasing};
ghost use Rattle.rank_step.specs.Ranks.{held_now};

use exchange::RankState;
use model_laws::ascending_ids_increase;
use pf_model::Body;
use pf_num::OutOfMemory;
use refresh_phase::present_bodies;
use std::alloc::Global;

/// What ranks have, where the particles, which are given by ascending id, are now.
pub(crate) fn held_now(
    alloc: Global,
    ranks: &[RankState],
    now: &[Body],
) -> Result<Vec<RankState>, OutOfMemory>
    requires { IsStrictlyIncreasing (map (λ p. p.id) now.now) }
    ensures { IfOk result (λ after. after.items ≡ map (held_now now.now) ranks.now) }
{
    let mut after = Vec::with_capacity(alloc, ranks.len())?;
    for state in ranks {
        after.push(state_now(alloc, state, now)?)?;
    }
    Ok(after)
}

fn state_now(alloc: Global, state: &RankState, now: &[Body]) -> Result<RankState, OutOfMemory>
    requires { IsStrictlyIncreasing (map (λ p. p.id) now.now) }
    ensures { IfOk result (λ after. after ≡ held_now now.now state.now) }
{
    ascending_ids_increase();
    Ok(RankState {
        rank: state.rank,
        bodies: present_bodies(alloc, &state.bodies, now)?,
    })
}
