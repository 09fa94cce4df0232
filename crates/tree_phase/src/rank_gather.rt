ghost use Rattle.std.specs.Prelude.{◌≡◌, ◌≤◌, ◌<◌, ◌^◌, IfOk, length};
ghost use Rattle.pf_model.specs.Division.{rank_count};
ghost use Rattle.group_lists.specs.Gathering.{own_gathering, with_source, IsNewSource, IsWhole, gathered_count};
ghost use Rattle.tree_phase.specs.Trees.{IsRankTree, IsFinished};

use crate::counts::{cells_in, counts_of, particles_within};
use crate::rank_lists::RankLists;
use crate::rank_tree::RankTree;
use group_lists::{Gather, MOST_ENTRIES};
use model_laws::lists_are_short;
use pf_model::{EssTree, MOST_RANKS, Steps, Terms, Theta};
use pf_num::OutOfMemory;
use std::alloc::Global;
use std::marker::Model;
use std::sync::ledger::Ledger;

/// What a rank gathers, and how many particles it has, and cells and particles came for it.
#[derive(Drop)]
pub struct RankGather<T: Terms> {
    gather: Gather<T>,
    particles: u32,
    cells: u32,
    parts: u32,
}

impl<T: Terms> Model for RankGather<T> {
    ghost use Rattle.group_lists.specs.Gathering.{Gathering};
    ghost use Rattle.tree_phase.specs.Trees.{IsCounted};

    ghost Value = { Gathering };

    ghost view = { λ r. r.gather };

    ghost invariant = { λ r. IsCounted T.theta T.grid T.particles r.gather r.particles r.cells r.parts };
}

impl<T: Terms> RankGather<T> {
    /// Begins the lists of a rank's groups with its own particles.
    pub(crate) fn open<L: Ledger>(
        alloc: Global,
        rank: u32,
        ranks: u32,
        own: &RankTree,
        t: Theta,
        steps: &mut Steps<L>,
    ) -> Result<RankGather<T>, OutOfMemory>
        requires rank { rank < ranks }
        requires ranks { rank_count T.grid ≡ ranks }
        requires own { IsRankTree T.grid T.particles rank own.now }
        requires theta { t ≡ T.theta }
        ensures { IfOk result (λ gather. gather ≡ own_gathering rank own.now.tree.built own.now.groups.items) }
    {
        let particles = own.tree.bodies().len() as u32;
        Ok(RankGather {
            gather: Gather::open(alloc, rank, ranks, &own.tree, &own.groups, t, steps)?,
            particles,
            cells: 0,
            parts: 0,
        })
    }

    /// Adds what a source's essential tree has for each list.
    pub(crate) fn absorb<L: Ledger>(
        self,
        alloc: Global,
        tree: EssTree<T>,
        steps: &mut Steps<L>,
    ) -> Result<RankGather<T>, OutOfMemory>
        requires here { tree.dst ≡ self.rank }
        requires new { IsNewSource T.grid self tree.src }
        requires few { length self.absorbed < MOST_RANKS }
        ensures { IfOk result (λ gather. gather ≡ with_source self tree.src) }
    {
        lists_are_short();
        let cells = self.cells + cells_in(&tree.items) as u32;
        let parts = self.parts + particles_within(&tree.items) as u32;
        Ok(RankGather {
            gather: self.gather.absorb(alloc, tree, steps)?,
            particles: self.particles,
            cells,
            parts,
        })
    }

    /// How long the lists are together.
    pub fn count(&self) -> u64
        ensures value { result ≡ gathered_count T.theta T.grid T.particles self.now }
        ensures few { result ≤ 2 ^ 32 }
    {
        lists_are_short();
        self.gather.count()
    }

    /// The lists, when the particles of all ranks are in, and what the text tells of them.
    pub fn finish(self, alloc: Global) -> Result<RankLists, OutOfMemory>
        requires whole { IsWhole T.grid self }
        requires few { gathered_count T.theta T.grid T.particles self ≤ MOST_ENTRIES }
        ensures { IfOk result (IsFinished T.theta T.grid T.particles self) }
    {
        let lists = self.gather.finish(alloc)?;
        let line = counts_of(self.particles, self.cells, self.parts, &lists);
        Ok(RankLists { lists, line })
    }
}
