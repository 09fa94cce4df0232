ghost use Rattle.std.specs.Prelude.{◌≡◌, ◌⊎◌, IfOk, length, map};
ghost use Rattle.std.specs.List.{zip};
ghost use Rattle.refresh_phase.specs.Kept.{as_built};
ghost use Rattle.refresh_phase.specs.Laws.{AreAsBuilt};
ghost use Rattle.rank_step.specs.Trees.{rank_built};

use pf_num::OutOfMemory;
use refresh_phase::KeptRank;
use std::alloc::{AllocError, Global};
use tree_phase::{RankLists, RankTree};

/// A rank when its lists are built.
#[derive(Drop)]
pub(crate) struct RankBuilt {
    tree: RankTree,
    lists: RankLists,
}

/// The trees and lists of a build, where steps without a build come between it and the next.
pub(crate) fn keep(
    alloc: Global,
    reuse: u32,
    trees: Vec<RankTree>,
    lists: Vec<RankLists>,
) -> Result<Vec<KeptRank>, OutOfMemory>
    requires { length trees.items ≡ length lists.items }
    ensures { IfOk result (λ kept. (reuse ≡ 1) ⊎ AreAsBuilt trees.items lists.items kept.items) }
{
    if reuse == 1 {
        return Ok(Vec::new(alloc));
    }
    keep_all(alloc, paired(alloc, trees, lists)?)
}

fn paired(
    alloc: Global,
    trees: Vec<RankTree>,
    lists: Vec<RankLists>,
) -> Result<Vec<RankBuilt>, AllocError>
    ensures { IfOk result (λ ranks. ranks.items ≡ map rank_built (zip trees.items lists.items)) }
{
    trees
        .into_iter()
        .zip(lists)
        .map(|(tree, lists)| RankBuilt { tree, lists })
        .collect(alloc)
}

fn keep_all(alloc: Global, ranks: Vec<RankBuilt>) -> Result<Vec<KeptRank>, OutOfMemory>
    ensures { IfOk result (λ kept. kept.items ≡ map (λ r. as_built r.tree r.lists) ranks.items) }
{
    let mut kept = Vec::with_capacity(alloc, ranks.len())?;
    for rank in ranks {
        kept.push(KeptRank::of(alloc, rank.tree, rank.lists)?)?;
    }
    Ok(kept)
}
