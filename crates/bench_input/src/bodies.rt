ghost use Rattle.std.specs.Prelude.{◌≡◌, ◌+◌, ◌*◌, ◌<◌, ◌≤◌, IfOk};
ghost use Rattle.pf_model.specs.Particles.{AreBodies};
ghost use Rattle.bench_input.specs.Generator.{state_after, particle, particles};

use crate::generator::Generator;
use pf_geom::Point;
use pf_model::{Body, MOST_PARTICLES};
use pf_num::OutOfMemory;
use std::alloc::Global;

/// The particles of the benchmark, with the ids from 1 to `count`.
pub fn particles(alloc: Global, count: u32, seed: u64) -> Result<Vec<Body>, OutOfMemory>
    requires { count ≤ MOST_PARTICLES }
    ensures value { IfOk result (λ bodies. bodies.items ≡ particles seed count) }
    ensures bodies { IfOk result (λ bodies. AreBodies bodies.items) }
{
    let mut generator = Generator { state: seed };
    let mut bodies = Vec::with_capacity(alloc, count as usize)?;
    for before in 0..count {
        bodies.push(particle(before, seed, &mut generator))?;
    }
    Ok(bodies)
}

// The particle that comes after `before` others.
fn particle(before: u32, seed: u64, generator: &mut Generator) -> Body
    requires few { before < MOST_PARTICLES }
    requires state { generator.old.state ≡ state_after seed (3 * before) }
    ensures value { result ≡ particle seed (before + 1) }
    ensures state { generator.new.state ≡ state_after seed (3 * (before + 1)) }
{
    let _seed = seed;
    Body {
        id: before + 1,
        at: Point {
            x: generator.draw(),
            y: generator.draw(),
            z: generator.draw(),
        },
        vel: [0; 3],
        mass: 1,
        attr: [0; 8],
    }
}
