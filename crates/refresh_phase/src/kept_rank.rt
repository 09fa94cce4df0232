use crate::laws::value_laws;
use crate::present::{present_bodies, refreshes};
use essential_tree::Sent;
use group_lists::{HasLists, Lists};
use list_reuse::{Kept, Refresh};
use morton_tree::Tree;
use pf_model::{Body, Terms};
use pf_num::OutOfMemory;
use run_model::RankLine;
use std::alloc::Global;
use std::marker::Model;
use tree_phase::{RankLists, RankTree};

/// A rank between builds: its octree, moved with its particles, what it keeps of the essential trees that it sent, its
/// lists, and what the text of a step tells of it.
#[derive(Drop)]
pub struct KeptRank {
    tree: Tree,
    sent: Vec<Sent>,
    kept: Kept,
    line: RankLine,
}

impl Model for KeptRank {
    ghost use Rattle.std.specs.Prelude.{◌≡◌, length};
    ghost use Rattle.refresh_phase.specs.Kept.{RankKept};

    ghost Value = { RankKept };

    ghost view = { λ r. record { tree = r.tree; sent = r.sent.items; lists = r.kept; line = r.line } };

    ghost invariant = { λ r. r.line.groups ≡ length r.kept.groups };
}

impl HasLists for KeptRank {
    ghost has = { λ r. r.lists.groups };

    fn lists(&self) -> &Lists {
        self.kept.lists()
    }
}

impl KeptRank {
    ghost use Rattle.std.specs.Prelude.{◌≡◌, IfOk, List, OnOk, length, map};
    ghost use Rattle.std.specs.List.Sorted.{IsStrictlyIncreasing};
    ghost use Rattle.pf_model.specs.Division.{rank_count};
    ghost use Rattle.pf_model.specs.Particles.{HaveSameIds};
    ghost use Rattle.pf_model.specs.Particle.{Particle};
    ghost use Rattle.list_reuse.specs.Keeping.{Motion, AreKept, IsRenewal, at_time};
    ghost use Rattle.refresh_phase.specs.Exchange.{refreshes_sent};
    ghost use Rattle.refresh_phase.specs.Kept.{as_built};
    ghost use Rattle.refresh_phase.specs.Renewing.{IsKeptSince, IsRenewed, moved_to};

    /// A rank of a build, with the lists of its groups.
    pub fn of(alloc: Global, tree: RankTree, lists: RankLists) -> Result<KeptRank, OutOfMemory>
        ensures { IfOk result (λ kept. kept ≡ as_built tree lists) }
    {
        let RankTree {
            tree,
            groups: _,
            sent,
        } = tree;
        let RankLists { lists, line } = lists;
        Ok(KeptRank {
            tree,
            sent,
            kept: Kept::of(alloc, lists)?,
            line,
        })
    }

    /// What the text of a step tells of the rank.
    pub fn line(&self) -> RankLine
        ensures line { result ≡ self.now.line }
        ensures groups { result.groups ≡ length self.now.lists.groups }
    {
        self.line
    }

    /// Moves the octree to where its particles are now, and gives the present values of the essential trees that the
    /// rank sent, for each other rank by rank.
    pub(crate) fn refreshes<T: Terms>(
        &mut self,
        alloc: Global,
        rank: u32,
        now: &[Body],
    ) -> Result<Vec<Refresh>, OutOfMemory>
        requires ascending { IsStrictlyIncreasing (map (λ p. p.id) now.now) }
        requires same { HaveSameIds T.particles now.now }
        requires kept { IsKeptSince T.theta T.grid T.particles rank self.old }
        ensures moved { OnOk result (self.new ≡ moved_to now.now self.old) }
        ensures values { IfOk result (λ refreshes.
            refreshes.items ≡ refreshes_sent T.theta T.grid T.particles now.now rank (rank_count T.grid)) }
    {
        value_laws();
        let present = present_bodies(alloc, self.tree.bodies(), now)?;
        self.tree.moved(&present);
        refreshes::<T>(alloc, rank, &self.tree, &self.sent, now)
    }

    /// Renews the lists by the refreshes of all other ranks.
    pub(crate) fn renew(&mut self, refreshes: &[Refresh])
        ghost m: { Motion }
        requires kept { (before : List Particle) × AreKept (at_time m before) self.old.lists }
        requires built { self.old.tree.built ≡ self.old.lists.built }
        requires renewal { IsRenewal m self.old.tree refreshes.now }
        ensures { IsRenewed m self.old self.new }
    {
        self.kept.refresh(&self.tree, refreshes);
    }
}
