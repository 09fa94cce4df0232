ghost use Rattle.std.specs.Prelude.{◌≡◌, ◌*◌, ◌^◌, ◌<◌, ◌≤◌};
ghost use Rattle.pf_geom.specs.Gap.{open_gap, periodic_gap, axis_gap, square, gap2_to};

use crate::box3::Box3;
use crate::cell::{Cell, closed_box};
use crate::edge::Edge;
use crate::point::CUBE_SIDE;

/// The squared gap between a box and a cell in an open cube: 0 where they share a point.
pub fn gap2(b: Box3, c: Cell) -> u128
    ensures value { result ≡ gap2_to Edge.Open b c }
    ensures fits { result < 3 * 2 ^ 60 }
{
    gap2_across(Edge::Open, b, c)
}

/// The squared gap between a box and a cell in a periodic cube, by the minimum image convention:
/// along each axis the least gap to the cell and to its images one cube below and one cube above.
pub fn gap2_round(b: Box3, c: Cell) -> u128
    ensures value { result ≡ gap2_to Edge.Periodic b c }
    ensures fits { result < 3 * 2 ^ 60 }
{
    gap2_across(Edge::Periodic, b, c)
}

/// The squared gap between a box and a cell, by what lies past the edge of the cube.
pub fn gap2_across(edge: Edge, b: Box3, c: Cell) -> u128
    ensures value { result ≡ gap2_to edge b c }
    ensures fits { result < 3 * 2 ^ 60 }
{
    u128::from(squared_gap(edge, b, c))
}

/// The same squared gap in 64 bits, which always hold it.
pub fn squared_gap(edge: Edge, b: Box3, c: Cell) -> u64
    ensures value { result ≡ gap2_to edge b c }
    ensures fits { result < 3 * 2 ^ 60 }
{
    let cell = closed_box(c);
    let from = b.lo;
    let to = b.hi;
    let lo = cell.lo;
    let hi = cell.hi;
    square(axis_gap(edge, from.x, to.x, lo.x, hi.x))
        + square(axis_gap(edge, from.y, to.y, lo.y, hi.y))
        + square(axis_gap(edge, from.z, to.z, lo.z, hi.z))
}

// How far the closed intervals from..to and lo..hi lie apart.
fn axis_gap(edge: Edge, from: u32, to: u32, lo: u32, hi: u32) -> u32
    requires to_fits { to < 2 ^ 30 }
    requires hi_fits { hi < 2 ^ 30 }
    requires from_fits { from ≤ to }
    requires lo_fits { lo ≤ hi }
    ensures value { result ≡ axis_gap edge from to lo hi }
    ensures fits { result < 2 ^ 30 }
{
    match edge {
        Edge::Open => open_gap(from, to, lo, hi),
        Edge::Periodic => {
            let here = open_gap(from, to, lo, hi);
            let above = open_gap(from, to, lo + CUBE_SIDE, hi + CUBE_SIDE);
            let below = open_gap(from + CUBE_SIDE, to + CUBE_SIDE, lo, hi);
            here.min(above.min(below))
        }
    }
}

fn open_gap(from: u32, to: u32, lo: u32, hi: u32) -> u32
    ensures { result ≡ open_gap from to lo hi }
{
    lo.saturating_sub(to).max(from.saturating_sub(hi))
}

fn square(gap: u32) -> u64
    requires { gap < 2 ^ 30 }
    ensures value { result ≡ square gap }
    ensures fits { result < 2 ^ 60 }
{
    u64::from(gap) * u64::from(gap)
}
