ghost use Rattle.std.specs.Prelude.{◌≡◌, ◌<◌, length, map};
ghost use Rattle.std.specs.List.Sorted.{IsStrictlyIncreasing};
ghost use Rattle.pf_model.specs.Division.{rank_count};
ghost use Rattle.pf_model.specs.Particles.{HaveSameIds};
ghost use Rattle.refresh_phase.specs.Phases.{CanMove, HasMoved};

use crate::kept_rank::KeptRank;
use all_to_all::Post;
use let_inbox::Inbox;
use list_reuse::Refresh;
use pf_model::{Body, Terms};
use std::alloc::Global;
use std::sync::Wait;

/// What the ranks share in both phases.
#[derive(Drop)]
pub(crate) struct Shared<'a, R> {
    pub(crate) rt: &'a R,
    pub(crate) alloc: Global,
    /// The bodies of all ranks as they are now, by ascending id.
    pub(crate) bodies: &'a [Body],
    pub(crate) inboxes: &'a [Inbox<Refresh>],
}

/// A rank in the phase Trees, and its post; it is refused where it found no memory.
#[derive(Drop)]
pub(crate) struct Mover {
    pub(crate) rank: KeptRank,
    pub(crate) post: Post<Refresh>,
    pub(crate) refused: bool,
}

/// A rank moves its octree, sends each other rank the present values of what it sent at the build, and takes what has
/// come.
pub(crate) fn send<R: Wait, T: Terms>(shared: &Shared<'_, R>, rank: usize, mover: &mut Mover)
    requires ascending { IsStrictlyIncreasing (map (λ p. p.id) shared.now.bodies.now) }
    requires same { HaveSameIds T.particles shared.now.bodies.now }
    requires inboxes { length shared.now.inboxes.now ≡ rank_count T.grid }
    requires can { CanMove T.theta T.grid T.particles shared.now.inboxes.now rank mover.old }
    requires few { rank < length shared.now.inboxes.now }
    ensures { HasMoved T.theta T.grid T.particles shared.now.bodies.now shared.now.inboxes.now rank mover.old mover.new }
{
    let Ok(refreshes) = mover
        .rank
        .refreshes::<T>(shared.alloc, rank as u32, shared.bodies)
    else {
        mover.refused = true;
        return;
    };
    mover.post.send(shared.rt, shared.inboxes, refreshes);
    mover.post.receive(shared.rt, shared.inboxes);
}
