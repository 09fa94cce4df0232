ghost use Rattle.std.specs.Prelude.{◌≡◌, length};
ghost use Rattle.pf_model.specs.Particles.{AreBodies};

use super::bodies::{TWO_CLOSE_AND_ONE_FAR, list, particles};
use pf_geom::Edge;
use pf_model::{Body, Build, Grid, Terms, Theta};
use std::marker::Brand;
use std::test::Fail;

// How many particles there are, in the terms T.
fn count_in<T: Terms>(build: Build<'_>) -> usize
    requires { T.particles ≡ build.bodies.now }
    ensures { result ≡ length T.particles }
{
    build.bodies.len()
}

// A caller that has values alone names terms by them.
fn count(bodies: &[Body], grid: Grid, theta: Theta) -> usize
    requires { AreBodies bodies.now }
    ensures { result ≡ length bodies.now }
{
    let build = Build::of(bodies, grid, theta);
    count_in::<Brand>(build)
}

#[test]
fn terms_are_named_at_run_time(rt: HostRuntime) -> Result<(), Fail> {
    let grid = Grid {
        nx: 2,
        ny: 1,
        nz: 1,
    };
    let theta = Theta {
        a: 1,
        b: 2,
        edge: Edge::Open,
    };
    let three = particles(rt.alloc(), &TWO_CLOSE_AND_ONE_FAR)?;
    assert!(rt; count(list(&three), grid, theta) == 3);
    Ok(())
}
