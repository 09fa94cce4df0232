ghost use Rattle.std.specs.Prelude.{◌≤◌, IfOk};
ghost use Rattle.pf_model.specs.Particles.{AreBodies};
ghost use Rattle.tree_phase.specs.Trees.{IsTreeOf};

use essential_tree::Sent;
use morton_tree::{Group, Tree};
use pf_model::{Body, MOST_GROUP};
use pf_num::OutOfMemory;
use std::alloc::Global;
use std::thread::Threads;

/// The tree of a rank's particles, their groups, and what the rank keeps of the essential trees that it sent, by the
/// ranks for which they are.
#[derive(Drop)]
pub struct RankTree {
    pub tree: Tree,
    pub groups: Vec<Group>,
    pub sent: Vec<Sent>,
}

impl RankTree {
    // Nothing is sent yet.
    pub(crate) fn of<R: Threads + Sync>(
        rt: &R,
        alloc: Global,
        bodies: &[Body],
        limit: u32,
    ) -> Result<RankTree, OutOfMemory>
        requires bodies { AreBodies bodies.now }
        requires some { 1 ≤ limit }
        requires most { limit ≤ MOST_GROUP }
        ensures { IfOk result (IsTreeOf limit bodies.now) }
    {
        let tree = Tree::build(rt, alloc, bodies.to_vec(alloc)?)?;
        let groups = tree.groups(alloc, limit)?;
        Ok(RankTree {
            tree,
            groups,
            sent: Vec::new(alloc),
        })
    }
}
