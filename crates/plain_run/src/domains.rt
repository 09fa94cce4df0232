ghost use Rattle.std.specs.Prelude.{◌≡◌, ◌+◌, ◌*◌, ◌<◌, ◌^◌, All, IfOk, slice_index_or};
ghost use Rattle.pf_model.specs.Particles.{AreBodies};
ghost use Rattle.pf_model.specs.Division.{rank_count};
ghost use Rattle.pf_model.specs.Domains as rules;
ghost use Rattle.pf_geom.specs.Position.{IsPosition};
ghost use Rattle.pf_geom.specs.Bounds.{IsBox};
ghost use Rattle.plain_run.specs.Boxes.{IsDomainBox, IsRankAt};

use crate::cutting::{CUBE_SIDE, slab_of, x_cuts, y_cuts, z_cuts};
use model_laws::{
    cuts_are_of_slabs_and_columns, domain_boxes_hold_what_is_owned, owners_are_ranks,
};
use pf_geom::{Box3, Point};
use pf_model::{Body, Grid};
use pf_num::OutOfMemory;
use std::alloc::Global;

/// The rank that owns a position, by the definition: the cube is cut along x, the position's slab along y and its
/// column along z. It sorts all bodies for each cut, and serves tests.
pub fn slow_owner(alloc: Global, bodies: &[Body], grid: Grid, at: Point) -> Result<u32, OutOfMemory>
    requires { AreBodies bodies.now }
    ensures { IfOk result (λ rank. rank ≡ rules.owner grid bodies.now at) }
{
    cuts_are_of_slabs_and_columns();
    owners_are_ranks();
    // A proof knows the limits of a grid once the body reads it.
    let _read = grid.nx;
    let x = x_cuts(alloc, bodies, grid)?;
    let ix = slab_of(&x, at.x);
    let y = y_cuts(alloc, bodies, grid, ix)?;
    let iy = slab_of(&y, at.y);
    let z = z_cuts(alloc, bodies, grid, ix, iy)?;
    let iz = slab_of(&z, at.z);
    Ok(rank_at(grid, ix, iy, iz))
}

// The rank at these places along the axes.
fn rank_at(grid: Grid, ix: usize, iy: usize, iz: usize) -> u32
    requires { (ix * grid.ny + iy) * grid.nz + iz < 64 }
    ensures { result ≡ (ix * grid.ny + iy) * grid.nz + iz }
{
    let rank = (ix * grid.ny as usize + iy) * grid.nz as usize + iz;
    rank as u32
}

/// The domain box of a rank, by the definition: the closed box of all positions that it owns. `None` exactly where
/// the rank owns none of the bodies. It serves tests.
pub fn slow_domain_box(
    alloc: Global,
    bodies: &[Body],
    grid: Grid,
    rank: u32,
) -> Result<Option<Box3>, OutOfMemory>
    requires { AreBodies bodies.now }
    ensures { IfOk result (λ around. IsDomainBox grid bodies.now rank around) }
{
    owners_are_ranks();
    domain_boxes_hold_what_is_owned();
    are_positions(bodies);
    let _read = grid.nx;
    let own = particles_of(alloc, bodies, grid, rank)?;
    if own.is_empty() {
        return Ok(None);
    }
    Ok(Some(box_of_rank(alloc, bodies, grid, rank)?))
}

// The domain box of a rank that owns a position.
fn box_of_rank(alloc: Global, bodies: &[Body], grid: Grid, rank: u32) -> Result<Box3, OutOfMemory>
    requires bodies { AreBodies bodies.now }
    requires rank { rank < rank_count grid }
    requires owns { IsBox (rules.domain_box grid bodies.now rank) }
    ensures { IfOk result (λ around. around ≡ rules.domain_box grid bodies.now rank) }
{
    cuts_are_of_slabs_and_columns();
    let (ix, iy, iz) = places_of(grid, rank);
    let x = x_cuts(alloc, bodies, grid)?;
    let y = y_cuts(alloc, bodies, grid, ix)?;
    let z = z_cuts(alloc, bodies, grid, ix, iy)?;
    Ok(Box3 {
        lo: Point {
            x: slab_start(&x, ix),
            y: slab_start(&y, iy),
            z: slab_start(&z, iz),
        },
        hi: Point {
            x: slab_end(&x, ix),
            y: slab_end(&y, iy),
            z: slab_end(&z, iz),
        },
    })
}

// The places of a rank along the axes.
fn places_of(grid: Grid, rank: u32) -> (usize, usize, usize)
    requires { rank < rank_count grid }
    ensures { IsRankAt grid rank result.0 result.1 result.2 }
{
    let column = rank / grid.nz;
    (
        (column / grid.ny) as usize,
        (column % grid.ny) as usize,
        (rank % grid.nz) as usize,
    )
}

// The lowest coordinate of a slab that isn't empty.
fn slab_start(cuts: &[u32], slab: usize) -> u32
    ensures { result ≡ rules.slab_start cuts.now slab }
{
    if slab == 0 { 0 } else { cut_at(cuts, slab - 1) }
}

// The highest coordinate of a slab that isn't empty.
fn slab_end(cuts: &[u32], slab: usize) -> u32
    ensures { result ≡ rules.slab_end cuts.now slab }
{
    cut_at(cuts, slab).saturating_sub(1)
}

// The cut at a place, where the cube ends at the last.
fn cut_at(cuts: &[u32], place: usize) -> u32
    ensures { result ≡ slice_index_or cuts.now place (2 ^ 30) }
{
    if place < cuts.len() {
        cuts[place]
    } else {
        CUBE_SIDE
    }
}

/// The bodies that a rank owns.
pub(crate) fn particles_of(
    alloc: Global,
    bodies: &[Body],
    grid: Grid,
    rank: u32,
) -> Result<Vec<Body>, OutOfMemory>
    requires { AreBodies bodies.now }
    ensures { IfOk result (λ own. own.items ≡ rules.particles_of grid bodies.now rank) }
{
    let mut own = Vec::new(alloc);
    for body in bodies {
        if slow_owner(alloc, bodies, grid, body.at)? == rank {
            own.push(*body)?;
        }
    }
    Ok(own)
}

// Every body lies in the cube: to know it, a proof opens each.
fn are_positions(bodies: &[Body])
    ensures { All (λ j. IsPosition j.at) bodies.now }
{
    for body in bodies {
        is_position(body);
    }
}

fn is_position(body: &Body)
    ensures { IsPosition body.now.at }
{
    let _read = body.at.x;
}
