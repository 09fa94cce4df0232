ghost use Rattle.std.specs.Prelude.{◌≡◌, ◌^◌, ◌<◌};
ghost use Rattle.run_model.specs.Force as rules;

use pf_geom::{Edge, Point};
use pf_model::{Body, Item};

// The side of the cube, and half of it.
const CUBE_SIDE: u32 = 1 << 30;

const HALF_SIDE: u32 = 1 << 29;

/// The particle as a kernel gets it: in a periodic box it stands in the middle.
pub fn received(edge: Edge, i: &Body) -> Body
    ensures { result ≡ rules.received edge i.now }
{
    match edge {
        Edge::Open => *i,
        Edge::Periodic => Body {
            at: Point {
                x: HALF_SIDE,
                y: HALF_SIDE,
                z: HALF_SIDE,
            },
            ..*i
        },
    }
}

/// An item as a kernel gets it for a particle at x: in a periodic box its nearest image, round the middle.
pub fn exerted(edge: Edge, x: Point, item: &Item) -> Item
    ensures { result ≡ rules.exerted edge x item.now }
{
    match edge {
        Edge::Open => *item,
        Edge::Periodic => {
            let at = seen(x, item.at);
            Item {
                at,
                mass: item.mass,
                attr: item.attr,
                count: item.count,
            }
        }
    }
}

fn seen(x: Point, at: Point) -> Point
    ensures { result
        ≡ record { x = rules.seen_from x.x at.x; y = rules.seen_from x.y at.y; z = rules.seen_from x.z at.z } }
{
    let (in_x, in_y, in_z) = (
        seen_from(x.x, at.x),
        seen_from(x.y, at.y),
        seen_from(x.z, at.z),
    );
    Point {
        x: in_x,
        y: in_y,
        z: in_z,
    }
}

fn seen_from(x: u32, coordinate: u32) -> u32
    requires x_fits { x < 2 ^ 30 }
    requires fits { coordinate < 2 ^ 30 }
    ensures value { result ≡ rules.seen_from x coordinate }
    ensures inside { result < 2 ^ 30 }
{
    (coordinate + (CUBE_SIDE - x) + HALF_SIDE) % CUBE_SIDE
}
