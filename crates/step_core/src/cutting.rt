ghost use Rattle.std.specs.Prelude.{◌≡◌, ◌-◌, ◌*◌, ◌/◌, ◌^◌, ◌<◌, ◌≤◌, ◌++◌, IfOk, length, map, All, slice_index_or};
ghost use Rattle.pf_geom.specs.Position.{IsPosition};
ghost use Rattle.pf_geom.specs.declared.axis.Axis.TheVariants.{Y, Z};
ghost use Rattle.pf_model.specs.declared.limits.TheConstants.{MOST_PARTICLES, MOST_RANKS};
ghost use Rattle.pf_model.specs.Domains.{cuts_for, cuts_of, slab_of};
ghost use Rattle.pf_geom.specs.Position.{along};
ghost use Rattle.pf_model.specs.Domains.{in_slab_along, column_cuts};

use crate::cuts::{Cuts, slab_of};
use crate::ordering::{coordinate, in_order};
use model_laws::cuts_ascend;
use pf_geom::Axis;
use pf_model::{Body, Grid, MOST_PARTICLES, MOST_RANKS};
use pf_num::OutOfMemory;
use std::alloc::Global;

// The side of the cube, which is also a cut where there are no bodies to cut.
const CUBE_SIDE: u32 = 1 << 30;

// The cuts that bodies make.
pub(crate) fn cut(alloc: Global, bodies: &[Body], grid: Grid) -> Result<Cuts, OutOfMemory>
    requires { length bodies.now ≤ MOST_PARTICLES }
    ensures { IfOk result (λ cuts. cuts ≡ cuts_for grid bodies.now) }
{
    cuts_ascend();
    are_positions(bodies);
    let x = cut_along(alloc, Axis::X, bodies, grid.nx)?;
    let mut y = Vec::new(alloc);
    let mut z = Vec::new(alloc);
    for ix in 0..grid.nx {
        let slab = bodies_in_slab(alloc, Axis::X, &x, bodies, ix)?;
        cut_slab(alloc, &slab, grid, &mut y, &mut z)?;
    }
    Ok(Cuts { grid, x, y, z })
}

// Cuts the bodies of a slab along y, and each of its columns along z. The cuts are put behind those before.
fn cut_slab(
    alloc: Global,
    slab: &[Body],
    grid: Grid,
    y: &mut Vec<u32>,
    z: &mut Vec<u32>,
) -> Result<(), OutOfMemory>
    requires { length slab.now ≤ MOST_PARTICLES }
    ensures y { IfOk result (λ _. y.new.items ≡ y.old.items ++ cuts_of (along Y) slab.now grid.ny) }
    ensures z { IfOk result (λ _. z.new.items ≡ z.old.items ++ column_cuts grid slab.now) }
{
    let own = cut_along(alloc, Axis::Y, slab, grid.ny)?;
    for iy in 0..grid.ny {
        let column = bodies_in_slab(alloc, Axis::Y, &own, slab, iy)?;
        let cuts = cut_along(alloc, Axis::Z, &column, grid.nz)?;
        z.extend_from_slice(&cuts)?;
    }
    y.extend_from_slice(&own)?;
    Ok(())
}

// The cuts of bodies along an axis into so many slabs.
fn cut_along(
    alloc: Global,
    axis: Axis,
    bodies: &[Body],
    slabs: u32,
) -> Result<Vec<u32>, OutOfMemory>
    requires bodies { length bodies.now ≤ MOST_PARTICLES }
    requires some { 1 ≤ slabs }
    requires few { slabs ≤ MOST_RANKS }
    ensures { IfOk result (λ cuts. cuts.items ≡ cuts_of (along axis) bodies.now slabs) }
{
    let sorted = in_order(alloc, bodies, axis)?;
    let mut cuts = Vec::with_capacity(alloc, slabs as usize - 1)?;
    for slab in 1..slabs {
        cuts.push(cut_before(axis, &sorted, bodies.len() * slab as usize / slabs as usize))?;
    }
    Ok(cuts)
}

// The cut at a place in the order: the coordinate of the body there.
fn cut_before(axis: Axis, sorted: &[Body], place: usize) -> u32
    ensures { result ≡ slice_index_or (map (λ j. along axis j.at) sorted.now) place (2 ^ 30) }
{
    if place < sorted.len() {
        let body = &sorted[place];
        coordinate(body.at, axis)
    } else {
        CUBE_SIDE
    }
}

// The bodies in a slab between cuts along an axis.
fn bodies_in_slab(
    alloc: Global,
    axis: Axis,
    cuts: &[u32],
    bodies: &[Body],
    slab: u32,
) -> Result<Vec<Body>, OutOfMemory>
    ensures { IfOk result (λ own. own.items ≡ in_slab_along axis cuts.now bodies.now slab) }
{
    let own = bodies.iter().filter(|body| slab_of(cuts, coordinate(body.at, axis))
        == slab as usize);
    Ok(own.copied().collect(alloc)?)
}

// Every body lies in the cube: to know it, a proof opens each.
fn are_positions(bodies: &[Body])
    ensures { All (λ j. IsPosition j.at) bodies.now }
{
    for body in bodies {
        is_position(body);
    }
}

fn is_position(body: &Body)
    ensures { IsPosition body.now.at }
{
    let _read = body.at.x;
}
