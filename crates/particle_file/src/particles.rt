ghost use Rattle.std.specs.Prelude.{◌≡◌, ◌≤◌, ◌↔◌, nat_eq, length, map, IfSome, IfNone, IsTrue, IsSorted};
ghost use Rattle.std.specs.List.{IsDistinct};
ghost use Rattle.std.specs.Ordering.{nat_cmp};
ghost use Rattle.pf_model.specs.Particles.{AreBodies, HaveDistinctIds};

use pf_model::{Body, MOST_PARTICLES};
use std::marker::Model;

/// At most 65,536 particles of distinct ids, in an order. Contracts see it as the list of them.
#[derive(Debug, Drop)]
pub struct Particles {
    pub(crate) bodies: Vec<Body>,
}

impl Model for Particles {
    ghost use Rattle.std.specs.Prelude.{List};
    ghost use Rattle.pf_model.specs.Particle.{Particle};
    ghost use Rattle.pf_model.specs.Particles.{AreBodies};

    ghost Value = { List Particle };

    ghost view = { λ p. p.bodies.items };

    ghost invariant = { λ p. AreBodies p.bodies.items };
}

/// The particles in their order. It takes no memory.
pub fn bodies(particles: &Particles) -> &[Body]
    ensures items { result.now ≡ particles.now }
    ensures bodies { AreBodies particles.now }
{
    particles.bodies.as_slice()
}

/// The particles of a list, in its order. It takes no memory. `None` comes exactly where two ids are
/// equal or there are more than 65,536.
pub fn of_bodies(bodies: Vec<Body>) -> Option<Particles>
    ensures some { IfSome result (λ particles. (particles ≡ bodies.items) × AreBodies bodies.items) }
    ensures none { IfNone result (¬ AreBodies bodies.items) }
{
    if bodies.len() <= MOST_PARTICLES as usize && have_distinct_ids(bodies.as_slice()) {
        Some(Particles { bodies })
    } else {
        None
    }
}

// The ids are sorted in a table that lies on the stack, as this may take no memory.
fn have_distinct_ids(bodies: &[Body]) -> bool
    requires { length bodies.now ≤ MOST_PARTICLES }
    ensures { IsTrue result ↔ HaveDistinctIds bodies.now }
{
    let mut table = [0; MOST_PARTICLES as usize];
    let ids = &mut table[..bodies.len()];
    copy_ids(bodies, ids);
    ids.sort_unstable();
    are_distinct(ids)
}

fn copy_ids(bodies: &[Body], ids: &mut [u32])
    requires { length ids.old ≡ length bodies.now }
    ensures { ids.new ≡ map (λ p. p.id) bodies.now }
{
    for (i, body) in bodies.iter().enumerate() {
        ids[i] = body.id;
    }
}

fn are_distinct(sorted: &[u32]) -> bool
    requires { IsSorted nat_cmp sorted.now }
    ensures { IsTrue result ↔ IsDistinct nat_eq sorted.now }
{
    for i in 1..sorted.len() {
        if sorted[i - 1] == sorted[i] {
            return false;
        }
    }
    true
}
