ghost use Rattle.std.specs.Prelude.{◌≤◌, IfOk};
ghost use Rattle.step_core.specs.Core.{IsSettings};

use super::bodies::{Row, list, particles};
use pf_geom::Edge;
use pf_model::{Grid, MOST_GROUP, Theta};
use std::alloc::Global;
use std::test::Fail;
use step_core::{MOST_WORKERS, Setup};

pub const TWO: [Row; 2] = [(1, [0, 0, 0], 1), (2, [3, 4, 0], 1)];

// Some near one another and some far.
pub const SIX: [Row; 6] = [
    (1, [0, 0, 0], 1),
    (2, [1048576, 0, 0], 1),
    (3, [1048581, 3, 0], 1),
    (4, [5, 1048576, 7], 1),
    (5, [536870912, 536870912, 536870912], 1),
    (6, [1048576, 4, 1073741823], 1),
];

// The opening angle 1/1 in an open cube.
pub fn wide() -> Theta {
    Theta {
        a: 1,
        b: 1,
        edge: Edge::Open,
    }
}

// The two particles on two ranks, of which each has one, in groups of at most 64. No cell passes.
pub fn two_ranks(alloc: Global, workers: u32) -> Result<Setup, Fail>
    requires some { 1 ≤ workers }
    requires most { workers ≤ MOST_WORKERS }
    ensures { IfOk result (λ setup. IsSettings setup) }
{
    let grid = Grid {
        nx: 2,
        ny: 1,
        nz: 1,
    };
    let theta = Theta {
        a: 0,
        b: 1,
        edge: Edge::Open,
    };
    setup(alloc, &TWO, grid, theta, 64, workers)
}

// The six particles, each a group by itself.
pub fn six_groups(alloc: Global, grid: Grid, workers: u32) -> Result<Setup, Fail>
    requires some { 1 ≤ workers }
    requires most { workers ≤ MOST_WORKERS }
    ensures { IfOk result (λ setup. IsSettings setup) }
{
    setup(alloc, &SIX, grid, wide(), 1, workers)
}

fn setup(
    alloc: Global,
    rows: &[Row],
    grid: Grid,
    theta: Theta,
    group: u32,
    workers: u32,
) -> Result<Setup, Fail>
    requires some_limit { 1 ≤ group }
    requires most_limit { group ≤ MOST_GROUP }
    requires some { 1 ≤ workers }
    requires most { workers ≤ MOST_WORKERS }
    ensures { IfOk result (λ setup. IsSettings setup) }
{
    let all = particles(alloc, rows)?;
    let bodies = Vec::from_slice(alloc, list(&all))?;
    Ok(Setup {
        bodies,
        grid,
        theta,
        group,
        workers,
    })
}
