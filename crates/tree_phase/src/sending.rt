ghost use Rattle.std.specs.Prelude.{◌≡◌, ◌<◌, IfOk, IsPermutation};
ghost use Rattle.pf_model.specs.Domains.{particles_of};
ghost use Rattle.morton_tree.specs.Tree.{IsUnmoved};
ghost use Rattle.multisection.specs.Regions.{AreTargets};
ghost use Rattle.let_inbox.specs.Sources.{others};
ghost use Rattle.tree_phase.specs.Parcels.{trees_sent, AreSentTo};

use essential_tree::{Sent, TreeParcel, essential};
use let_inbox::others_grow;
use morton_tree::Tree;
use multisection::{Domains, target};
use pf_model::{Steps, Terms, Theta};
use pf_num::OutOfMemory;
use std::alloc::Global;
use std::sync::ledger::Ledger;

/// The essential trees that a rank sends, one for each other rank, by rank, and what it keeps of them.
pub(crate) fn trees_sent<T: Terms, L: Ledger>(
    alloc: Global,
    own: &Tree,
    rank: u32,
    ranks: u32,
    domains: &Domains,
    t: Theta,
    steps: &mut Steps<L>,
) -> Result<(Vec<TreeParcel<T>>, Vec<Sent>), OutOfMemory>
    requires unmoved { IsUnmoved own.now }
    requires own { IsPermutation own.now.built (particles_of T.grid T.particles rank) }
    requires targets { AreTargets T.grid T.particles domains.now }
    requires theta { t ≡ T.theta }
    ensures parcels { IfOk result (λ b. b.0.items ≡ trees_sent T.theta T.grid T.particles rank ranks) }
    ensures kept { IfOk result (λ b.
        AreSentTo T.theta T.grid T.particles rank own.now.built (others rank ranks) b.1.items) }
{
    others_grow();
    let mut parcels = Vec::with_capacity(alloc, ranks as usize)?;
    let mut kept = Vec::with_capacity(alloc, ranks as usize)?;
    for dst in 0..ranks {
        if dst != rank {
            let to = target(domains, dst);
            let (tree, sent) = essential(alloc, own, rank, dst, to, t, steps)?;
            parcels.push(TreeParcel { tree })?;
            kept.push(sent)?;
        }
    }
    Ok((parcels, kept))
}
