ghost use Rattle.std.specs.Prelude.{◌≡◌};
ghost use Rattle.pf_model.specs.Group.{box_of};

use crate::body::Body;
use pf_geom::{Box3, Point, widen};

/// The least box round bodies, and of none the box of the origin alone.
pub fn box_of(bodies: &[Body]) -> Box3
    ensures { result ≡ box_of bodies.now }
{
    if bodies.is_empty() {
        let origin = Point { x: 0, y: 0, z: 0 };
        return Box3 {
            lo: origin,
            hi: origin,
        };
    }
    let first = &bodies[0];
    let mut around = Box3 {
        lo: first.at,
        hi: first.at,
    };
    for body in &bodies[1..] {
        around = widen(around, body.at);
    }
    around
}
