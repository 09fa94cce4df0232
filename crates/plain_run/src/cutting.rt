ghost use Rattle.std.specs.Prelude.{◌≡◌, ◌*◌, ◌/◌, ◌^◌, ◌≤◌, IfOk, length, map, slice_index_or};
ghost use Rattle.pf_model.specs.declared.limits.TheConstants.{MOST_PARTICLES, MOST_RANKS};
ghost use Rattle.pf_model.specs.Domains as rules;
ghost use Rattle.pf_geom.specs.Position.{along};
ghost use Rattle.pf_model.specs.Domains.{in_slab_along};

use crate::ordering::{coordinate, in_order};
use pf_geom::Axis;
use pf_model::{Body, Grid, MOST_PARTICLES, MOST_RANKS};
use pf_num::OutOfMemory;
use std::alloc::Global;

// The side of the cube, which is also a cut where there are no bodies to cut.
pub(crate) const CUBE_SIDE: u32 = 1 << 30;

// The cuts along x.
pub(crate) fn x_cuts(alloc: Global, bodies: &[Body], grid: Grid) -> Result<Vec<u32>, OutOfMemory>
    requires { length bodies.now ≤ MOST_PARTICLES }
    ensures { IfOk result (λ cuts. cuts.items ≡ rules.x_cuts grid bodies.now) }
{
    cut_along(alloc, Axis::X, bodies, grid.nx)
}

// The cuts along y in a slab.
pub(crate) fn y_cuts(
    alloc: Global,
    bodies: &[Body],
    grid: Grid,
    ix: usize,
) -> Result<Vec<u32>, OutOfMemory>
    requires { length bodies.now ≤ MOST_PARTICLES }
    ensures { IfOk result (λ cuts. cuts.items ≡ rules.y_cuts grid bodies.now ix) }
{
    let slab = in_slab(alloc, bodies, grid, ix)?;
    cut_along(alloc, Axis::Y, &slab, grid.ny)
}

// The cuts along z in a column of a slab.
pub(crate) fn z_cuts(
    alloc: Global,
    bodies: &[Body],
    grid: Grid,
    ix: usize,
    iy: usize,
) -> Result<Vec<u32>, OutOfMemory>
    requires { length bodies.now ≤ MOST_PARTICLES }
    ensures { IfOk result (λ cuts. cuts.items ≡ rules.z_cuts grid bodies.now ix iy) }
{
    let column = in_column(alloc, bodies, grid, ix, iy)?;
    cut_along(alloc, Axis::Z, &column, grid.nz)
}

// The bodies in a slab of x.
fn in_slab(alloc: Global, bodies: &[Body], grid: Grid, ix: usize) -> Result<Vec<Body>, OutOfMemory>
    requires { length bodies.now ≤ MOST_PARTICLES }
    ensures value { IfOk result (λ slab. slab.items ≡ rules.in_slab grid bodies.now ix) }
    ensures few { IfOk result (λ slab. length slab.items ≤ length bodies.now) }
{
    let cuts = x_cuts(alloc, bodies, grid)?;
    in_slab_along(alloc, Axis::X, &cuts, bodies, ix)
}

// The bodies in a column of a slab.
fn in_column(
    alloc: Global,
    bodies: &[Body],
    grid: Grid,
    ix: usize,
    iy: usize,
) -> Result<Vec<Body>, OutOfMemory>
    requires { length bodies.now ≤ MOST_PARTICLES }
    ensures value { IfOk result (λ column. column.items ≡ rules.in_column grid bodies.now ix iy) }
    ensures few { IfOk result (λ column. length column.items ≤ length bodies.now) }
{
    let slab = in_slab(alloc, bodies, grid, ix)?;
    let cuts = y_cuts(alloc, bodies, grid, ix)?;
    in_slab_along(alloc, Axis::Y, &cuts, &slab, iy)
}

// The bodies in a slab between cuts along an axis.
fn in_slab_along(
    alloc: Global,
    axis: Axis,
    cuts: &[u32],
    bodies: &[Body],
    slab: usize,
) -> Result<Vec<Body>, OutOfMemory>
    ensures value { IfOk result (λ own. own.items ≡ in_slab_along axis cuts.now bodies.now slab) }
    ensures few { IfOk result (λ own. length own.items ≤ length bodies.now) }
{
    let own = bodies
        .iter()
        .filter(|body| slab_of(cuts, coordinate(body.at, axis)) == slab);
    Ok(own.copied().collect(alloc)?)
}

// The slab of a coordinate: how many cuts are at most it.
pub(crate) fn slab_of(cuts: &[u32], coordinate: u32) -> usize
    ensures value { result ≡ rules.slab_of cuts.now coordinate }
    ensures bound { result ≤ length cuts.now }
{
    cuts.iter().filter(|cut| **cut <= coordinate).count()
}

// The cuts of bodies along an axis into so many slabs.
fn cut_along(
    alloc: Global,
    axis: Axis,
    bodies: &[Body],
    slabs: u32,
) -> Result<Vec<u32>, OutOfMemory>
    requires bodies { length bodies.now ≤ MOST_PARTICLES }
    requires some { 1 ≤ slabs }
    requires few { slabs ≤ MOST_RANKS }
    ensures { IfOk result (λ cuts. cuts.items ≡ rules.cuts_of (along axis) bodies.now slabs) }
{
    let sorted = in_order(alloc, bodies, axis)?;
    let mut cuts = Vec::with_capacity(alloc, slabs as usize - 1)?;
    for slab in 1..slabs {
        cuts.push(cut_at(axis, &sorted, bodies.len() * slab as usize / slabs as usize))?;
    }
    Ok(cuts)
}

// The cut at a place in the order: the coordinate of the body there.
fn cut_at(axis: Axis, sorted: &[Body], place: usize) -> u32
    ensures { result ≡ slice_index_or (map (λ j. along axis j.at) sorted.now) place (2 ^ 30) }
{
    if place < sorted.len() {
        let body = &sorted[place];
        coordinate(body.at, axis)
    } else {
        CUBE_SIDE
    }
}
