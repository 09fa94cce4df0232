ghost use Rattle.std.specs.Prelude.{◌≡◌, ℕ, [], IfOk, IsPermutation, List};
ghost use Rattle.pf_model.specs.Criterion.{Criterion};
ghost use Rattle.pf_model.specs.Division.{Division, rank_count};
ghost use Rattle.pf_model.specs.Particle.{Particle};
ghost use Rattle.let_inbox.specs.Sources.{others};
ghost use Rattle.tree_phase.specs.Parcels.{trees_received};

use crate::rank_gather::RankGather;
use essential_tree::TreeParcel;
use let_inbox::{others_are_few, others_are_the_sources, others_ascend};
use order_laws::sorts_by_key_are_one;
use pf_model::{Steps, Terms};
use pf_num::OutOfMemory;
use std::alloc::Global;
use std::sync::ledger::Ledger;

/// Adds the essential trees of all other ranks, which may have come in any order, in the order of their sources.
pub(crate) fn absorb_by_source<T: Terms, L: Ledger>(
    alloc: Global,
    gather: RankGather<T>,
    mut parcels: Vec<TreeParcel<T>>,
    steps: &mut Steps<L>,
) -> Result<RankGather<T>, OutOfMemory>
    requires none { gather.absorbed ≡ [] }
    requires all { IsPermutation (trees_received T.theta T.grid T.particles gather.rank (rank_count T.grid))
        parcels.items }
    ensures { IfOk result (λ after. after ≡ record gather { absorbed = others gather.rank (rank_count T.grid) }) }
{
    sort_by_source(&mut parcels);
    absorb_all(alloc, gather, parcels, steps)
}

// Puts the trees that came for a rank into the order of their sources.
fn sort_by_source<T: Terms>(parcels: &mut [TreeParcel<T>])
    ensures { (t : Criterion) (g : Division) (js : List Particle) (rank ranks : ℕ)
        → IsPermutation (trees_received t g js rank ranks) parcels.old
        → parcels.new ≡ trees_received t g js rank ranks }
{
    others_ascend();
    sorts_by_key_are_one::<TreeParcel<T>>();
    parcels.sort_unstable_by_key(|parcel| parcel.tree.src);
}

// Adds these trees one after another.
fn absorb_all<T: Terms, L: Ledger>(
    alloc: Global,
    gather: RankGather<T>,
    parcels: Vec<TreeParcel<T>>,
    steps: &mut Steps<L>,
) -> Result<RankGather<T>, OutOfMemory>
    requires none { gather.absorbed ≡ [] }
    requires all { parcels.items ≡ trees_received T.theta T.grid T.particles gather.rank (rank_count T.grid) }
    ensures { IfOk result (λ after. after ≡ record gather { absorbed = others gather.rank (rank_count T.grid) }) }
{
    others_ascend();
    others_are_the_sources();
    others_are_few();
    let mut gather = gather;
    for parcel in parcels {
        gather = gather.absorb(alloc, parcel.tree, steps)?;
    }
    Ok(gather)
}
