ghost use Rattle.std.specs.Prelude.{◌≡◌, ◌<◌, IfOk, length};
ghost use Rattle.pf_model.specs.Division.{rank_count};
ghost use Rattle.pf_model.specs.Particles.{HaveSameIds};
ghost use Rattle.list_reuse.specs.Keeping.{Motion};
ghost use Rattle.refresh_phase.specs.Kept.{seen_from};
ghost use Rattle.refresh_phase.specs.Phases.{CanSettleRank, HasSettled, IsSettled};

use crate::kept_rank::KeptRank;
use crate::moving::Shared;
use all_to_all::Post;
use let_inbox::Spent;
use list_reuse::Refresh;
use pf_model::Terms;
use pf_num::OutOfMemory;
use std::mem;
use std::sync::Wait;
use tree_phase::Arrivals;

/// A rank in the phase Gather, its post, and the tokens of what was sent to it. After the phase it has arrivals, unless
/// it found no memory.
#[derive(Drop)]
pub(crate) struct Renewer {
    pub(crate) rank: KeptRank,
    pub(crate) post: Post<Refresh>,
    pub(crate) tokens: Vec<Spent<Refresh>>,
    pub(crate) arrivals: Option<Arrivals>,
}

/// A rank takes the rest of the refreshes for it, and renews its lists by all of them.
pub(crate) fn settle<R: Wait, T: Terms>(shared: &Shared<'_, R>, rank: usize, renewer: &mut Renewer)
    requires same { HaveSameIds T.particles shared.now.bodies.now }
    requires inboxes { length shared.now.inboxes.now ≡ rank_count T.grid }
    requires can { CanSettleRank T.theta T.grid T.particles shared.now.bodies.now shared.now.inboxes.now rank renewer.old }
    requires few { rank < length shared.now.inboxes.now }
    ensures { HasSettled T.theta T.grid T.particles shared.now.bodies.now rank renewer.old renewer.new }
{
    renewer.arrivals = renewed::<R, T>(shared, rank as u32, renewer).ok();
}

// In which order refreshes came to the rank, once its lists are renewed; m is the build as it sees it now.
fn renewed<R: Wait, T: Terms>(
    shared: &Shared<'_, R>,
    rank: u32,
    renewer: &mut Renewer,
) -> Result<Arrivals, OutOfMemory>
    ghost m: { Motion }
    requires here { m ≡ seen_from T.theta T.grid T.particles shared.now.bodies.now rank }
    requires same { HaveSameIds T.particles shared.now.bodies.now }
    requires inboxes { length shared.now.inboxes.now ≡ rank_count T.grid }
    requires can { CanSettleRank T.theta T.grid T.particles shared.now.bodies.now shared.now.inboxes.now rank renewer.old }
    requires few { rank < length shared.now.inboxes.now }
    ensures { IfOk result
        (IsSettled T.theta T.grid T.particles shared.now.bodies.now rank renewer.old.rank renewer.new.rank) }
{
    let tokens = mem::replace(&mut renewer.tokens, Vec::new(shared.alloc));
    renewer.post.settle(shared.rt, shared.inboxes, tokens);
    let sources = renewer.post.sources().to_vec(shared.alloc)?;
    renewer.rank.renew(renewer.post.parcels());
    Ok(Arrivals { rank, sources })
}
