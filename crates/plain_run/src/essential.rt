ghost use Rattle.std.specs.Prelude.{◌≡◌, IfOk};
ghost use Rattle.pf_model.specs.Particles.{AreBodies};
ghost use Rattle.pf_model.specs.EssentialTree.{essential_tree};

use crate::domains::{particles_of, slow_domain_box};
use model_laws::some_have_distinct_ids;
use pf_model::{Body, Entry, Grid, Theta, slow_list};
use pf_num::OutOfMemory;
use std::alloc::Global;

/// What rank `src` sends rank `dst` for its interaction lists, by the definition: the list of the receiver's domain
/// box over the sender's bodies, and nothing where the receiver has none. It serves tests.
pub fn slow_essential(
    alloc: Global,
    bodies: &[Body],
    grid: Grid,
    theta: Theta,
    src: u32,
    dst: u32,
) -> Result<Vec<Entry>, OutOfMemory>
    requires { AreBodies bodies.now }
    ensures { IfOk result (λ items. items.items ≡ essential_tree theta grid bodies.now src dst) }
{
    some_have_distinct_ids();
    match slow_domain_box(alloc, bodies, grid, dst)? {
        Some(target) => {
            let own = particles_of(alloc, bodies, grid, src)?;
            slow_list(alloc, &own, target, theta)
        }
        None => Ok(Vec::new(alloc)),
    }
}
