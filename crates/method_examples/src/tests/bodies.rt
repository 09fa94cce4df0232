ghost use Rattle.std.specs.Prelude.{◌≡◌, map, IfOk};
ghost use Rattle.pf_model.specs.Particles.{AreBodies};

use particle_file::{Particles, bodies, of_bodies};
use pf_geom::point_at;
use pf_model::Body;
use pf_num::OutOfMemory;
use std::alloc::Global;
use std::test::Fail;

// A particle at rest, with no attributes: its id, its place and its mass.
pub type Row = (u32, [u32; 3], u32);

pub const TWO_CLOSE_AND_ONE_FAR: [Row; 3] = [
    (1, [0, 0, 0], 1),
    (2, [1048576, 0, 0], 1),
    (3, [1048581, 0, 0], 3),
];

// The same, in another order.
pub const TURNED: [Row; 3] = [
    (3, [1048581, 0, 0], 3),
    (1, [0, 0, 0], 1),
    (2, [1048576, 0, 0], 1),
];

// The particles of some rows.
pub fn particles(alloc: Global, rows: &[Row]) -> Result<Particles, Fail> {
    let mut bodies = Vec::new(alloc);
    for row in rows {
        bodies.push(body_of(row).ok_or("a particle past its limits")?)?;
    }
    Ok(of_bodies(bodies).ok_or("an id that comes twice")?)
}

// Their list.
pub fn list(all: &Particles) -> &[Body]
    ensures { AreBodies result.now }
{
    bodies(all)
}

pub fn body_of(row: &Row) -> Option<Body> {
    let (id, [x, y, z], mass) = *row;
    let at = point_at(x, y, z)?;
    if mass == 0 || mass >= 1 << 31 {
        return None;
    }
    Some(Body {
        id,
        at,
        vel: [0; 3],
        mass,
        attr: [0; 8],
    })
}

pub fn is_body(body: &Body, row: &Row) -> bool {
    match body_of(row) {
        Some(wanted) => *body == wanted,
        None => false,
    }
}

// Whether these bodies are those of the rows, in their order.
pub fn are_bodies(bodies: &[Body], rows: &[Row]) -> bool {
    if bodies.len() != rows.len() {
        return false;
    }
    for i in 0..rows.len() {
        if !is_body(&bodies[i], &rows[i]) {
            return false;
        }
    }
    true
}

// Bodies half as far along the x axis.
pub fn halfway(alloc: Global, bodies: &[Body]) -> Result<Vec<Body>, OutOfMemory>
    ensures { IfOk result (λ now. map (λ j. j.id) now.items ≡ map (λ j. j.id) bodies.now) }
{
    let mut now = Vec::with_capacity(alloc, bodies.len())?;
    for body in bodies {
        now.push(half(body))?;
    }
    Ok(now)
}

fn half(body: &Body) -> Body
    ensures { result.id ≡ body.now.id }
{
    let mut half = *body;
    half.at.x /= 2;
    half
}
