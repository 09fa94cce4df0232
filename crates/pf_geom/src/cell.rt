ghost use Rattle.std.specs.Prelude.{◌≡◌, ◌≤◌, ◌↔◌, IsTrue};
ghost use Rattle.pf_geom.specs.Octant.{side_at, cell_at, IsIn, corner_of, IsCornerOf, closed_box};

use crate::box3::Box3;
use crate::key::{coordinates, key_of};
use crate::point::Point;
use std::marker::Model;

/// The deepest level of cells, whose side is 1.
pub const DEEPEST: u32 = 30;

/// A cell of the octree over the cube: one of the 8^level cubes of side 2^(30 - level) of its level,
/// from 0 to 30. The key is that of any point in it, shifted right by 3(30 - level) bits. Cells are
/// ordered by level, then by key.
#[derive(Clone, Copy, Debug, PartialEq, Eq, Hash, PartialOrd, Ord)]
pub struct Cell {
    pub level: u32,
    pub key: u128,
}

impl Model for Cell {
    ghost use Rattle.pf_geom.specs.Octant.{Octant, IsOctant};

    ghost Value = { Octant };

    ghost view = { λ c. record { level = c.level; key = c.key } };

    ghost invariant = { λ c. IsOctant c.level c.key };

    ghost inverse = { λ c. record { level = c.level; key = c.key } };
}

/// The cell of a point at a level.
pub fn cell_of(p: Point, level: u32) -> Cell
    requires { level ≤ DEEPEST }
    ensures { result ≡ cell_at p level }
{
    Cell {
        level,
        key: key_of(p) >> (3 * (DEEPEST - level)),
    }
}

/// The point of a cell whose coordinates are the least.
pub fn corner(c: Cell) -> Point
    ensures value { result ≡ corner_of c }
    ensures in_cell { IsCornerOf c result }
{
    let side = side_of(c.level);
    let (x, y, z) = coordinates(c.key, c.level);
    Point {
        x: side * x,
        y: side * y,
        z: side * z,
    }
}

/// The side of a cell: how many coordinates it has along each axis.
pub fn side(c: Cell) -> u32
    ensures { result ≡ side_at c.level }
{
    side_of(c.level)
}

fn side_of(level: u32) -> u32
    requires { level ≤ DEEPEST }
    ensures { result ≡ side_at level }
{
    1 << (DEEPEST - level)
}

/// Whether a point lies in a cell.
pub fn contains(c: Cell, p: Point) -> bool
    ensures { IsTrue result ↔ IsIn p c }
{
    cell_of(p, c.level) == c
}

// The box of all points of a cell.
pub(crate) fn closed_box(c: Cell) -> Box3
    ensures { result ≡ closed_box c }
{
    let lo = corner(c);
    let reach = side_of(c.level) - 1;
    let hi = Point {
        x: lo.x + reach,
        y: lo.y + reach,
        z: lo.z + reach,
    };
    Box3 { lo, hi }
}
