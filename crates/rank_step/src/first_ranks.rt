ghost use Rattle.std.specs.Prelude.{◌≡◌, ◌≤◌, IfOk, map};
ghost use Rattle.std.specs.List.Sorted.{IsStrictlyIncreasing};
ghost use Rattle.rank_step.specs.Ranks.{HaveTogether, dealt_to, first_ranks};

use crate::laws::deal_laws;
use exchange::RankState;
use pf_model::{Body, Grid};
use std::alloc::{AllocError, Global};

/// The ranks before the first step, over particles by ascending id: the one at place k belongs to rank k mod R.
pub(crate) fn first_ranks(
    alloc: Global,
    bodies: &[Body],
    grid: Grid,
) -> Result<Vec<RankState>, AllocError>
    requires { IsStrictlyIncreasing (map (λ p. p.id) bodies.now) }
    ensures first { IfOk result (λ ranks. ranks.items ≡ first_ranks grid bodies.now) }
    ensures together { IfOk result (λ ranks. HaveTogether grid bodies.now ranks.items) }
{
    deal_laws();
    let count = grid.nx * grid.ny * grid.nz;
    let mut ranks = Vec::with_capacity(alloc, count as usize)?;
    for rank in 0..count {
        ranks.push(first_rank(alloc, bodies, rank, count)?)?;
    }
    Ok(ranks)
}

// What a rank has of particles by ascending id before the first step.
fn first_rank(
    alloc: Global,
    bodies: &[Body],
    rank: u32,
    count: u32,
) -> Result<RankState, AllocError>
    requires ascending { IsStrictlyIncreasing (map (λ p. p.id) bodies.now) }
    requires some { 1 ≤ count }
    ensures { IfOk result (λ state. state ≡ record { rank = rank; bodies = dealt_to count bodies.now rank }) }
{
    deal_laws();
    let bodies = every(alloc, bodies, rank as usize, count as usize)?;
    Ok(RankState { rank, bodies })
}

// The bodies at the places that leave this rest.
fn every(alloc: Global, bodies: &[Body], rest: usize, count: usize) -> Result<Vec<Body>, AllocError>
    requires { 1 ≤ count }
    ensures { IfOk result (λ own. own.items ≡ dealt_to count bodies.now rest) }
{
    let mut own = Vec::with_capacity(alloc, bodies.len() / count + 1)?;
    for (place, body) in bodies.iter().enumerate() {
        if place % count == rest {
            own.push(*body)?;
        }
    }
    Ok(own)
}
