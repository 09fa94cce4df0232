ghost use Rattle.std.specs.Prelude.{◌≡◌};
ghost use Rattle.pf_geom.specs.Bounds.{IsLeastRound, box_round};

use crate::point::Point;
use std::marker::Model;

/// A closed box: all positions from `lo` to `hi` on each axis, both included.
#[derive(Clone, Copy, Debug, PartialEq, Eq, Hash)]
pub struct Box3 {
    pub lo: Point,
    pub hi: Point,
}

impl Model for Box3 {
    ghost use Rattle.pf_geom.specs.Position.{IsAtMost};
    ghost use Rattle.pf_geom.specs.Bounds.{Bounds};

    ghost Value = { Bounds };

    ghost view = { λ b. record { lo = b.lo; hi = b.hi } };

    ghost invariant = { λ b. IsAtMost b.lo b.hi };

    ghost inverse = { λ b. record { lo = b.lo; hi = b.hi } };
}

/// The least box round a box and a point.
pub fn widen(b: Box3, p: Point) -> Box3
    ensures value { result ≡ box_round b p }
    ensures least { IsLeastRound b p result }
{
    Box3 {
        lo: Point {
            x: b.lo.x.min(p.x),
            y: b.lo.y.min(p.y),
            z: b.lo.z.min(p.z),
        },
        hi: Point {
            x: b.hi.x.max(p.x),
            y: b.hi.y.max(p.y),
            z: b.hi.z.max(p.z),
        },
    }
}
