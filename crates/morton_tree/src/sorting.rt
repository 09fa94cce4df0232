ghost use Rattle.std.specs.Prelude.{◌≡◌, ◌<◌, ◌≤◌, IfOk, All, IsPermutation, length, map};
ghost use Rattle.std.specs.List.Sorted.{IsSortedBy};
ghost use Rattle.pf_geom.specs.Key.{morton_key};
ghost use Rattle.pf_model.specs.Particles.{AreBodies};
ghost use Rattle.morton_tree.specs.Tree.{IsOctree, unmoved_tree};
ghost use Rattle.morton_tree.specs.Sorting.{all_placed, is_before, particle_at};

use crate::placed::Placed;
use pf_geom::key_of;
use pf_model::{Body, MOST_PARTICLES};
use pf_num::OutOfMemory;
use rayon::prelude::*;
use std::alloc::Global;
use std::thread::Threads;

// The keys of bodies and the bodies themselves, both in the order of (key, id). Keys are made once, and what is
// sorted is small: a body moves once, to its place.
pub(crate) fn in_order(
    rt: &(impl Threads + Sync),
    alloc: Global,
    bodies: &[Body],
) -> Result<(Vec<u128>, Vec<Body>), OutOfMemory>
    requires { AreBodies bodies.now }
    ensures same_bodies { IfOk result (λ r. IsPermutation bodies.now r.1.items) }
    ensures tree { IfOk result (λ r. IsOctree (unmoved_tree r.1.items)) }
    ensures keys { IfOk result (λ r. r.0.items ≡ map (λ j. morton_key j.at) r.1.items) }
{
    let mut placed = placed(alloc, bodies)?;
    put_in_order(rt, &mut placed);
    let keys = keys_of(alloc, &placed)?;
    let sorted = at_places(alloc, bodies, &placed)?;
    Ok((keys, sorted))
}

// The keys and ids of bodies, each with the place of its body.
fn placed(alloc: Global, bodies: &[Body]) -> Result<Vec<Placed>, OutOfMemory>
    requires { length bodies.now ≤ MOST_PARTICLES }
    ensures { IfOk result (λ placed. placed.items ≡ all_placed bodies.now) }
{
    let mut placed = Vec::with_capacity(alloc, bodies.len())?;
    for place in 0..bodies.len() {
        let body = &bodies[place];
        placed.push(Placed {
            key: key_of(body.at),
            id: body.id,
            place: place as u32,
        })?;
    }
    Ok(placed)
}

// Puts keys and ids into their order.
fn put_in_order(rt: &(impl Threads + Sync), placed: &mut [Placed])
    ensures same { IsPermutation placed.old placed.new }
    ensures ordered { IsSortedBy is_before placed.new }
{
    par_sort_unstable_by_key(rt, placed, |one| (one.key, one.id));
}

fn keys_of(alloc: Global, placed: &[Placed]) -> Result<Vec<u128>, OutOfMemory>
    ensures { IfOk result (λ keys. keys.items ≡ map (λ p. p.key) placed.now) }
{
    Ok(placed.iter().map(|one| one.key).collect(alloc)?)
}

// The bodies at these places, in this order.
fn at_places(alloc: Global, bodies: &[Body], placed: &[Placed]) -> Result<Vec<Body>, OutOfMemory>
    requires { All (λ p. p.place < length bodies.now) placed.now }
    ensures { IfOk result (λ sorted. sorted.items ≡ map (particle_at bodies.now) placed.now) }
{
    let mut sorted = Vec::with_capacity(alloc, placed.len())?;
    for one in placed {
        sorted.push(bodies[one.place as usize])?;
    }
    Ok(sorted)
}
