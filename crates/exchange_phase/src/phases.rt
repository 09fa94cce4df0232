ghost use Rattle.std.specs.Prelude.{◌≡◌, ◌≤◌, IfOk, map};
ghost use Rattle.std.specs.List.Sorted.{IsStrictlyIncreasing};
ghost use Rattle.pf_model.specs.Particles.{AreBodies};
ghost use Rattle.multisection.specs.Regions.{regions_of};
ghost use Rattle.exchange_phase.specs.Ranks.{HaveTogether, with_owners};

use crate::arriving::settle_all;
use crate::laws::{phase_laws, ranks_by_number_have_together};
use crate::leaving::leave_all;
use all_to_all::{open, tokens_for};
use exchange::{Parcel, RankState};
use model_laws::ranks_by_id_have_all;
use multisection::{Domains, ranks};
use pf_io::Gate;
use pf_model::{Body, Grid};
use pf_num::OutOfMemory;
use std::alloc::Global;
use std::sync::Wait;
use std::thread::Threads;

/// The ranks when each of the particles, which are given by ascending id, has come to its owner by the domains that
/// they make, from whichever ranks had them. In each of two phases the workers drive the ranks, each through the gate;
/// inboxes are opened, and tokens handed over, in the caller.
pub fn exchanged<R: Threads + Wait + Sync, G: Gate>(
    rt: &R,
    alloc: Global,
    workers: u32,
    gate: &G,
    states: Vec<RankState>,
    now: &[Body],
    domains: &Domains,
    grid: Grid,
) -> Result<Vec<RankState>, OutOfMemory>
    requires workers { 1 ≤ workers }
    requires bodies { AreBodies now.now }
    requires ascending { IsStrictlyIncreasing (map (λ p. p.id) now.now) }
    requires domains { domains.now ≡ regions_of grid now.now }
    requires together { HaveTogether grid now.now states.items }
    ensures owners { IfOk result (λ after. after.items ≡ with_owners grid now.now) }
    ensures together { IfOk result (λ after. HaveTogether grid now.now after.items) }
{
    phase_laws();
    ranks_by_id_have_all();
    ranks_by_number_have_together();
    let _nx = grid.nx;
    let (inboxes, posts) = open::<Parcel>(alloc, ranks(domains))?;
    let (left, mut posts) = leave_all(rt, alloc, workers, gate, domains, &inboxes, states, posts)?;
    let tokens = tokens_for(alloc, &inboxes, &mut posts)?;
    settle_all(rt, alloc, workers, gate, &inboxes, left, posts, tokens)
}
