ghost use Rattle.std.specs.Prelude.{◌≡◌, ◌<◌, [], IfOk, OnOk, OnErr, map};
ghost use Rattle.std.specs.List.{range_with_len};
ghost use Rattle.pf_model.specs.Division.{rank_count};
ghost use Rattle.pf_model.specs.Domains.{owner_by};
ghost use Rattle.exchange.specs.States.{left_with, parcels_from};

use crate::parcel::Parcel;
use crate::rank_state::RankState;
use multisection::{Domains, owner, ranks};
use pf_model::Body;
use pf_num::OutOfMemory;
use std::alloc::Global;

/// Takes out the bodies that a rank no longer owns: one parcel for each other rank, by rank. After a refusal
/// the state is as before.
pub fn leave(alloc: Global, s: &mut RankState, d: &Domains) -> Result<Vec<Parcel>, OutOfMemory>
    ensures left { OnOk result (s.new ≡ left_with d.now.cuts s.old) }
    ensures parcels { IfOk result (λ parcels. parcels.items ≡ parcels_from d.now.cuts s.old) }
    ensures refused { OnErr result (s.new ≡ s.old) }
{
    let parcels = parcels_of(alloc, s, d)?;
    keep_own(s, d);
    Ok(parcels)
}

// Takes out of a state what its rank doesn't own.
fn keep_own(s: &mut RankState, d: &Domains)
    ensures { s.new ≡ left_with d.now.cuts s.old }
{
    let rank = s.rank;
    s.bodies.retain(|body| owner_of(body, d) == rank);
}

// The parcels of a state, one for each other rank.
fn parcels_of(alloc: Global, s: &RankState, d: &Domains) -> Result<Vec<Parcel>, OutOfMemory>
    ensures { IfOk result (λ parcels. parcels.items ≡ parcels_from d.now.cuts s.now) }
{
    let mut parcels = one_for_each_rank(alloc, s.rank, ranks(d))?;
    for body in &s.bodies {
        let to = owner_of(body, d);
        if to != s.rank {
            parcels[to as usize].put(*body)?;
        }
    }
    parcels.retain(|parcel| parcel.dst != s.rank);
    Ok(parcels)
}

// Empty parcels of a rank for all ranks.
fn one_for_each_rank(alloc: Global, rank: u32, count: u32) -> Result<Vec<Parcel>, OutOfMemory>
    ensures { IfOk result (λ parcels. parcels.items
        ≡ map (λ dst. record { src = rank; dst = dst; bodies = [] }) (range_with_len 0 count)) }
{
    let mut parcels = Vec::with_capacity(alloc, count as usize)?;
    for dst in 0..count {
        parcels.push(Parcel::empty(alloc, rank, dst))?;
    }
    Ok(parcels)
}

// The rank that owns a body.
fn owner_of(body: &Body, d: &Domains) -> u32
    ensures value { result ≡ owner_by d.now.cuts body.now.at }
    ensures rank { result < rank_count d.now.cuts.grid }
{
    owner(d, body.at)
}
