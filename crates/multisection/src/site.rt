ghost use Rattle.std.specs.Prelude.{◌≡◌, IfOk, All, map};
ghost use Rattle.pf_geom.specs.Position.{IsPosition};
ghost use Rattle.multisection.specs.Sites.{site_of, along};

use pf_geom::{Axis, Point};
use pf_model::Body;
use pf_num::OutOfMemory;
use std::alloc::Global;
use std::marker::Model;

// Where a body is, and its id: all of it that domains are made from. Clauses see it as a particle with
// nothing else.
#[derive(Clone, Copy)]
pub(crate) struct Site {
    id: u32,
    at: Point,
}

impl Model for Site {
    ghost use Rattle.std.specs.Prelude.{[]};
    ghost use Rattle.pf_model.specs.Particle.{Particle};

    ghost Value = { Particle };

    ghost view = { λ s. record { id = s.id; at = s.at; vel = []; mass = 0; attr = [] } };

    ghost inverse = { λ p. record { id = p.id; at = p.at } };
}

impl Site {
    // The site of a body.
    fn of(body: &Body) -> Site
        ensures value { result ≡ site_of body.now }
        ensures inside { IsPosition body.now.at }
    {
        // A proof knows the limits of a point once the body reads it.
        let _read = body.at.x;
        Site {
            id: body.id,
            at: body.at,
        }
    }

    // Where the site stands in the order along an axis: by coordinate, then by id.
    pub(crate) fn place(&self, axis: Axis) -> (u32, u32)
        ensures { result ≡ (along axis self.now.at, self.now.id) }
    {
        let coordinate = match axis {
            Axis::X => self.at.x,
            Axis::Y => self.at.y,
            Axis::Z => self.at.z,
        };
        (coordinate, self.id)
    }
}

// The sites of bodies.
pub(crate) fn sites_of(alloc: Global, bodies: &[Body]) -> Result<Vec<Site>, OutOfMemory>
    ensures value { IfOk result (λ sites. sites.items ≡ map site_of bodies.now) }
    ensures inside { IfOk result (λ sites. All (λ j. IsPosition j.at) bodies.now) }
{
    let mut sites = Vec::with_capacity(alloc, bodies.len())?;
    for body in bodies {
        sites.push(Site::of(body))?;
    }
    Ok(sites)
}
