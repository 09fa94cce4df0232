ghost use Rattle.std.specs.Prelude.{◌≡◌, ◌^◌, ◌<◌, All, List, []};
ghost use Rattle.std.proofs.Common.{lit≤};
ghost use Rattle.std.proofs.Props.{props};
ghost use Rattle.pf_geom.specs.declared.edge.Edge.TheVariants.{Open};
ghost use Rattle.pf_model.specs.Particle.{Particle, IsParticle};
ghost use Rattle.pf_model.specs.Particles.{AreBodies, AreBodies-prop};
ghost use Rattle.pf_model.specs.Criterion.{Criterion, IsCriterion};
ghost use Rattle.pf_model.specs.Division.{Division, IsDivision};

use crate::body::Body;
use crate::grid::Grid;
use crate::theta::Theta;
use std::marker::Brand;

/// What the essential trees of a build are made from. It has no bytes, and contracts alone read it.
pub trait Terms {
    // the particles of all ranks
    ghost particles: { List Particle };

    ghost are_bodies: { AreBodies particles };

    ghost within_limits: { All IsParticle particles };

    // how the cube is divided among the ranks
    ghost grid: { Division };

    ghost is_division: { IsDivision grid };

    // the criterion of the opening test
    ghost theta: { Criterion };

    ghost is_criterion: { IsCriterion theta };
}

impl Terms for Brand {
    ghost use Rattle.pf_model.specs.NoTerms.{no_particles_differ, no_particle_passes_a_limit};

    ghost particles = { [] };

    ghost are_bodies = { record { few = lit≤ tt; distinct = no_particles_differ } };

    ghost within_limits = { no_particle_passes_a_limit };

    ghost grid = { record { nx = 1; ny = 1; nz = 1 } };

    ghost is_division = { record { some_x = lit≤ tt; some_y = lit≤ tt; some_z = lit≤ tt; few = lit≤ tt } };

    ghost theta = { record { a = 0; b = 1; edge = Open } };

    ghost is_criterion = { record {
      numerator_fits = lit≤ tt;
      denominator_positive = lit≤ tt;
      denominator_fits = lit≤ tt;
    } };
}

/// What a build is made from, as values: a caller that has one can name terms by it.
#[derive(Clone, Copy)]
pub struct Build<'a> {
    pub bodies: &'a [Body],
    pub grid: Grid,
    pub theta: Theta,
    pub ghost are_bodies: { AreBodies bodies.now } by { AreBodies-prop bodies.now },
    pub ghost within_limits: { All IsParticle bodies.now } by { Prim.hlevel props },
    pub ghost is_division: { IsDivision grid },
    pub ghost is_criterion: { IsCriterion theta },
}

impl<'a> Build<'a> {
    /// The build of these bodies.
    pub fn of(bodies: &'a [Body], grid: Grid, theta: Theta) -> Build<'a>
        requires { AreBodies bodies.now }
        ensures bodies { result.bodies.now ≡ bodies.now }
        ensures grid { result.grid ≡ grid }
        ensures theta { result.theta ≡ theta }
    {
        // A proof knows the limits of a value once the body reads it.
        let _read = (grid.nx, theta.a);
        keep_limits(bodies);
        Build {
            bodies,
            grid,
            theta,
        }
    }
}

// Every body keeps its limits: to know it, a proof opens each.
fn keep_limits(bodies: &[Body])
    ensures { All IsParticle bodies.now }
{
    for body in bodies {
        keeps_limits(body);
    }
}

fn keeps_limits(body: &Body)
    ensures { IsParticle body.now }
{
    is_number(body.id);
    let _read = body.at.x;
}

fn is_number(id: u32)
    ensures { id < 2 ^ 32 }
{}
