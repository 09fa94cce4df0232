ghost use Rattle.std.specs.Prelude.{◌≡◌, All, ◌++◌, ◌<◌, ◌≤◌, IfOk, IsPermutation, length, filter};
ghost use Rattle.std.specs.Prelude.{map, take, drop, nat_le, nat_lt, slice_index_or, ◌*◌, ◌/◌, ◌^◌, ◌-◌};
ghost use Rattle.std.specs.List.Sorted.{IsNonDecreasing, IsNonDecreasingBy};
ghost use Rattle.pf_geom.specs.Position.{IsPosition};
ghost use Rattle.pf_model.specs.Particles.{AreBodies, HaveDistinctIds};
ghost use Rattle.pf_model.specs.Domains.{slab_of, cuts_of, cuts_for};
ghost use Rattle.pf_model.specs.declared.limits.TheConstants.{MOST_RANKS, MOST_PARTICLES};
ghost use Rattle.pf_geom.specs.declared.axis.Axis.TheVariants.{Y};
ghost use Rattle.multisection.specs.Sites.{along, column_cuts, IsInOrder};

use crate::cuts::Cuts;
use crate::site::{Site, sites_of};
use crate::slab::{CUBE_SIDE, slab_of};
use model_laws::{
    coordinates_ascend, cuts_along_ignore_order, cuts_ascend, distinct_ids_ignore_order,
    orders_along_are_one, some_have_distinct_ids,
};
use order_laws::{maps_keep_orders, tests_keep_permutations};
use pf_geom::Axis;
use pf_model::{Body, Grid, MOST_PARTICLES, MOST_RANKS};
use pf_num::OutOfMemory;
use std::alloc::Global;

// The cuts that bodies make.
pub(crate) fn cut(alloc: Global, bodies: &[Body], grid: Grid) -> Result<Cuts, OutOfMemory>
    requires { AreBodies bodies.now }
    ensures { IfOk result (λ cuts. cuts ≡ cuts_for grid bodies.now) }
{
    maps_keep_orders::<Body, Site>();
    let mut sites = sites_of(alloc, bodies)?;
    cut_sites(alloc, &mut sites, grid)
}

// Cuts the cube along x, and each of its slabs further. The sites are put into another order.
fn cut_sites(alloc: Global, sites: &mut [Site], grid: Grid) -> Result<Cuts, OutOfMemory>
    requires bodies { AreBodies sites.old }
    requires inside { All (λ j. IsPosition j.at) sites.old }
    ensures { IfOk result (λ cuts. cuts ≡ cuts_for grid sites.old) }
{
    cuts_ascend();
    cuts_along_ignore_order();
    distinct_ids_ignore_order();
    some_have_distinct_ids();
    tests_keep_permutations::<Site>();
    let x = cut_along(alloc, Axis::X, sites, grid.nx)?;
    let mut y = Vec::new(alloc);
    let mut z = Vec::new(alloc);
    let mut start = 0;
    for ix in 0..grid.nx {
        let end = run_end(&x, Axis::X, ix as usize, sites, start);
        cut_slab(alloc, &mut sites[start..end], grid, &mut y, &mut z)?;
        start = end;
    }
    Ok(Cuts { grid, x, y, z })
}

// Cuts the sites of a slab along y, and each of its columns along z. The cuts are put behind those before.
fn cut_slab(
    alloc: Global,
    sites: &mut [Site],
    grid: Grid,
    y: &mut Vec<u32>,
    z: &mut Vec<u32>,
) -> Result<(), OutOfMemory>
    requires { AreBodies sites.old }
    ensures same { length sites.new ≡ length sites.old }
    ensures y { IfOk result (λ _. y.new.items ≡ y.old.items ++ cuts_of (along Y) sites.old grid.ny) }
    ensures z { IfOk result (λ _. z.new.items ≡ z.old.items ++ column_cuts grid sites.old) }
{
    cuts_along_ignore_order();
    distinct_ids_ignore_order();
    some_have_distinct_ids();
    tests_keep_permutations::<Site>();
    let own = cut_along(alloc, Axis::Y, sites, grid.ny)?;
    let mut start = 0;
    for iy in 0..grid.ny {
        let end = run_end(&own, Axis::Y, iy as usize, sites, start);
        let column = cut_along(alloc, Axis::Z, &mut sites[start..end], grid.nz)?;
        z.extend_from_slice(&column)?;
        start = end;
    }
    y.extend_from_slice(&own)?;
    Ok(())
}

// Puts sites into the order of (coordinate, id) along an axis, and gives the cuts into so many slabs.
fn cut_along(
    alloc: Global,
    axis: Axis,
    sites: &mut [Site],
    slabs: u32,
) -> Result<Vec<u32>, OutOfMemory>
    requires bodies { AreBodies sites.old }
    requires some { 1 ≤ slabs }
    requires few { slabs ≤ MOST_RANKS }
    ensures same { IsPermutation sites.old sites.new }
    ensures rise { IsNonDecreasingBy (λ j. along axis j.at) sites.new }
    ensures ascend { IfOk result (λ cuts. IsNonDecreasing cuts.items) }
    ensures cuts { IfOk result (λ cuts. cuts.items ≡ cuts_of (along axis) sites.old slabs) }
{
    orders_along_are_one();
    sort_along(axis, sites);
    let mut cuts = Vec::with_capacity(alloc, slabs as usize - 1)?;
    for slab in 1..slabs {
        cuts.push(cut_before(axis, sites, slab as usize, slabs as usize))?;
    }
    Ok(cuts)
}

// Puts sites into the order of (coordinate, id) along an axis.
fn sort_along(axis: Axis, sites: &mut [Site])
    requires { HaveDistinctIds sites.old }
    ensures same { IsPermutation sites.old sites.new }
    ensures in_order { IsInOrder axis sites.new }
    ensures rise { IsNonDecreasingBy (λ j. along axis j.at) sites.new }
{
    coordinates_ascend();
    distinct_ids_ignore_order();
    orders_along_are_one();
    sites.sort_unstable_by_key(|site| site.place(axis));
}

// The cut before a slab: the coordinate of the site at its place in the order.
fn cut_before(axis: Axis, sites: &[Site], slab: usize, slabs: usize) -> u32
    requires few { length sites.now ≤ MOST_PARTICLES }
    requires within { slab < slabs }
    requires slabs { slabs ≤ MOST_RANKS }
    ensures { result
        ≡ slice_index_or (map (λ j. along axis j.at) sites.now) (length sites.now * slab / slabs) (2 ^ 30) }
{
    let place = sites.len() * slab / slabs;
    if place < sites.len() {
        sites[place].place(axis).0
    } else {
        CUBE_SIDE
    }
}

// Where the run of a slab ends that begins at a place, where no site from there on lies in a lower slab.
fn run_end(cuts: &[u32], axis: Axis, slab: usize, sites: &[Site], start: usize) -> usize
    requires ascend { IsNonDecreasing cuts.now }
    requires within { start ≤ length sites.now }
    requires rise { IsNonDecreasingBy (λ j. along axis j.at) (drop start sites.now) }
    ensures after { start ≤ result }
    ensures bound { result ≤ length sites.now }
    ensures run { take (result - start) (drop start sites.now)
        ≡ filter (λ j. nat_le (slab_of cuts.now (along axis j.at)) slab) (drop start sites.now) }
    ensures rest { drop result sites.now
        ≡ filter (λ j. nat_lt slab (slab_of cuts.now (along axis j.at))) (drop start sites.now) }
{
    start + front_len(cuts, axis, slab, &sites[start..])
}

// How many sites at the front lie in the slab, where none lies in a lower one.
fn front_len(cuts: &[u32], axis: Axis, slab: usize, sites: &[Site]) -> usize
    requires ascend { IsNonDecreasing cuts.now }
    requires rise { IsNonDecreasingBy (λ j. along axis j.at) sites.now }
    ensures bound { result ≤ length sites.now }
    ensures front { take result sites.now
        ≡ filter (λ j. nat_le (slab_of cuts.now (along axis j.at)) slab) sites.now }
    ensures rest { drop result sites.now
        ≡ filter (λ j. nat_lt slab (slab_of cuts.now (along axis j.at))) sites.now }
{
    sites.partition_point(|site| slab_of(cuts, site.place(axis).0) <= slab)
}
