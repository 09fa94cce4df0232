ghost use Rattle.std.specs.Prelude.{◌≡◌, IfOk, IsPermutation, map};
ghost use Rattle.std.specs.List.Sorted.{IsStrictlyIncreasing};
ghost use Rattle.let_inbox.specs.Sources.{others};
ghost use Rattle.pf_model.specs.Division.{rank_count};
ghost use Rattle.pf_model.specs.Domains.{particles_of};
ghost use Rattle.pf_model.specs.Particles.{HaveSameIds};
ghost use Rattle.pf_model.specs.Reuse.{as_in};
ghost use Rattle.refresh_phase.specs.Exchange.{refreshes_sent};
ghost use Rattle.tree_phase.specs.Parcels.{AreSentTo};

use crate::laws::value_laws;
use essential_tree::Sent;
use list_reuse::{Refresh, refreshed};
use morton_tree::Tree;
use pf_model::{Body, Terms};
use pf_num::OutOfMemory;
use std::alloc::{AllocError, Global};

/// Bodies in their order, each as it is now; the bodies of now are given by ascending id.
pub fn present_bodies(
    alloc: Global,
    bodies: &[Body],
    now: &[Body],
) -> Result<Vec<Body>, OutOfMemory>
    requires { IsStrictlyIncreasing (map (λ p. p.id) now.now) }
    ensures bodies { IfOk result (λ present. present.items ≡ map (as_in now.now) bodies.now) }
    ensures ids { IfOk result (λ present. map (λ p. p.id) present.items ≡ map (λ p. p.id) bodies.now) }
{
    let present = as_in_all(alloc, bodies, now)?;
    Ok(present)
}

fn as_in_all(alloc: Global, bodies: &[Body], now: &[Body]) -> Result<Vec<Body>, AllocError>
    requires { IsStrictlyIncreasing (map (λ p. p.id) now.now) }
    ensures { IfOk result (λ present. present.items ≡ map (as_in now.now) bodies.now) }
{
    bodies.iter().map(|body| as_in(now, body)).collect(alloc)
}

// The body with the id of this one, if there is one.
fn as_in(now: &[Body], body: &Body) -> Body
    requires { IsStrictlyIncreasing (map (λ p. p.id) now.now) }
    ensures { result ≡ as_in now.now body.now }
{
    match now.binary_search_by_key(&body.id, |other| other.id) {
        Ok(place) => now[place],
        Err(_) => *body,
    }
}

/// The present values of the essential trees that a rank sent, by the ranks for which they are, from its octree that is
/// moved.
pub(crate) fn refreshes<T: Terms>(
    alloc: Global,
    rank: u32,
    tree: &Tree,
    sent: &[Sent],
    now: &[Body],
) -> Result<Vec<Refresh>, OutOfMemory>
    requires same { HaveSameIds T.particles now.now }
    requires own { IsPermutation (particles_of T.grid T.particles rank) tree.now.built }
    requires present { tree.now.bodies ≡ map (as_in now.now) tree.now.built }
    requires sent { AreSentTo T.theta T.grid T.particles rank tree.now.built (others rank (rank_count T.grid)) sent.now }
    ensures { IfOk result (λ refreshes.
        refreshes.items ≡ refreshes_sent T.theta T.grid T.particles now.now rank (rank_count T.grid)) }
{
    value_laws();
    let mut refreshes = Vec::with_capacity(alloc, sent.len())?;
    for kept in sent {
        refreshes.push(refreshed(alloc, kept, rank, tree)?)?;
    }
    Ok(refreshes)
}
