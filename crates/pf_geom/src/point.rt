ghost use Rattle.std.specs.Prelude.{◌≡◌, IsSome, IfSome};
ghost use Rattle.pf_geom.specs.Position.{Position, IsInCube};

use std::marker::Model;

// A coordinate is a number of this many bits.
pub(crate) const COORDINATE_BITS: u32 = 30;

// The side of the cube.
pub(crate) const CUBE_SIDE: u32 = 1 << COORDINATE_BITS;

/// A position in the cube: each coordinate is below 2^30.
#[derive(Clone, Copy, Debug, PartialEq, Eq, Hash)]
pub struct Point {
    pub x: u32,
    pub y: u32,
    pub z: u32,
}

impl Model for Point {
    ghost use Rattle.pf_geom.specs.Position.{Position, IsInCube};

    ghost Value = { Position };

    ghost view = { λ p. record { x = p.x; y = p.y; z = p.z } };

    ghost invariant = { λ p. IsInCube p.x p.y p.z };

    ghost inverse = { λ p. record { x = p.x; y = p.y; z = p.z } };
}

/// The point with these coordinates, or `None` exactly where one of them is 2^30 or more.
pub fn point_at(x: u32, y: u32, z: u32) -> Option<Point>
    ensures inside { IsInCube x y z → IsSome result }
    ensures value { IfSome result (λ p. IsInCube x y z × (p ≡ record { x = x; y = y; z = z })) }
{
    if x < CUBE_SIDE && y < CUBE_SIDE && z < CUBE_SIDE {
        Some(Point { x, y, z })
    } else {
        None
    }
}
