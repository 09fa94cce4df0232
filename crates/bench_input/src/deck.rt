ghost use Rattle.std.specs.Prelude.{◌≡◌};
ghost use Rattle.bench_input.specs.Setup.{bench_grid, bench_theta};

use pf_geom::Edge;
use pf_model::{Grid, Theta};

/// The most particles of a group.
pub const GROUP: u32 = 64;

/// The number of the last step.
pub const STEPS: u32 = 4;

/// The length of a step.
pub const DT: u32 = 16;

/// The steps from a build to the next.
pub const REUSE: u32 = 4;

/// Eight ranks.
pub fn grid() -> Grid
    ensures { result ≡ bench_grid }
{
    Grid {
        nx: 2,
        ny: 2,
        nz: 2,
    }
}

/// The opening angle 7/10, in an open cube.
pub fn theta() -> Theta
    ensures { result ≡ bench_theta }
{
    Theta {
        a: 7,
        b: 10,
        edge: Edge::Open,
    }
}
