ghost use Rattle.std.specs.Prelude.{◌≡◌, ◌<◌, IfOk, IsPermutation, length, slice_index_or};
ghost use Rattle.pf_model.specs.Division.{rank_count};
ghost use Rattle.let_inbox.specs.Sources.{others};
ghost use Rattle.tree_phase.specs.declared.rank_tree.RankTree.{RankTree};
ghost use Rattle.tree_phase.specs.Exchange.{CanSettle, HasEnded, Waits};
ghost use Rattle.tree_phase.specs.Trees.{AreRankTrees, gathered_over};

use crate::absorbing::absorb_by_source;
use crate::arrivals::Arrivals;
use crate::rank_gather::RankGather;
use crate::rank_tree::RankTree;
use all_to_all::Post;
use essential_tree::TreeParcel;
use let_inbox::{Inbox, Spent};
use pf_model::{Steps, Terms, Theta};
use pf_num::OutOfMemory;
use std::alloc::Global;
use std::marker::Brand;
use std::mem;
use std::sync::Wait;
use std::sync::ledger::{Blank, Ledger};

/// What the ranks share in the phase Gather.
#[derive(Drop)]
pub(crate) struct Gathering<'a, R, T: Terms> {
    pub(crate) rt: &'a R,
    pub(crate) alloc: Global,
    pub(crate) trees: &'a [RankTree],
    pub(crate) inboxes: &'a [Inbox<TreeParcel<T>>],
    pub(crate) theta: Theta,
}

/// A rank in the phase Gather.
#[derive(Drop)]
pub(crate) enum Receiver<T: Terms> {
    /// It has its post, and the tokens of what was sent to it.
    Waiting(Post<TreeParcel<T>>, Vec<Spent<TreeParcel<T>>>),
    /// It has absorbed the essential trees of all other ranks.
    Received(RankGather<T>, Arrivals),
    /// It found no memory.
    Refused,
}

/// A rank takes the rest of the essential trees for it, and absorbs all in order of source.
pub(crate) fn receive<R: Wait + Sync, T: Terms + Send + Sync>(
    shared: &Gathering<'_, R, T>,
    rank: usize,
    receiver: &mut Receiver<T>,
)
    requires within { rank < length shared.now.trees.now }
    requires criterion { shared.now.theta ≡ T.theta }
    requires trees { AreRankTrees T.grid T.particles shared.now.trees.now }
    requires inboxes { length shared.now.inboxes.now ≡ rank_count T.grid }
    requires waits { Waits T.theta T.grid T.particles shared.now.inboxes.now rank receiver.old }
    ensures { HasEnded T.grid shared.now.trees.now rank receiver.new }
{
    let waiting = mem::replace(receiver, Receiver::Refused);
    *receiver = received(shared, rank as u32, waiting);
}

fn received<R: Wait + Sync, T: Terms + Send + Sync>(
    shared: &Gathering<'_, R, T>,
    rank: u32,
    waiting: Receiver<T>,
) -> Receiver<T>
    requires within { rank < length shared.now.trees.now }
    requires criterion { shared.now.theta ≡ T.theta }
    requires trees { AreRankTrees T.grid T.particles shared.now.trees.now }
    requires inboxes { length shared.now.inboxes.now ≡ rank_count T.grid }
    requires waits { Waits T.theta T.grid T.particles shared.now.inboxes.now rank waiting }
    ensures { HasEnded T.grid shared.now.trees.now rank result }
{
    let Receiver::Waiting(post, tokens) = waiting else {
        unreachable!()
    };
    match absorb_trees::<R, T, Brand>(shared, rank, post, tokens, Blank::new(1)) {
        Ok((gather, sources)) => Receiver::Received(gather, Arrivals { rank, sources }),
        Err(_) => Receiver::Refused,
    }
}

// The lists of a rank's groups over the particles of all, and the sources in the order in which their trees came.
fn absorb_trees<R: Wait + Sync, T: Terms + Send + Sync, L: Ledger>(
    shared: &Gathering<'_, R, T>,
    rank: u32,
    mut post: Post<TreeParcel<T>>,
    tokens: Vec<Spent<TreeParcel<T>>>,
    blank: Blank,
) -> Result<(RankGather<T>, Vec<u32>), OutOfMemory>
    requires within { rank < length shared.now.trees.now }
    requires criterion { shared.now.theta ≡ T.theta }
    requires trees { AreRankTrees T.grid T.particles shared.now.trees.now }
    requires inboxes { length shared.now.inboxes.now ≡ rank_count T.grid }
    requires settles { CanSettle T.theta T.grid T.particles shared.now.inboxes.now rank post tokens.items }
    requires name { blank.name ≡ L.name }
    requires parts { blank.parts ≡ L.parts }
    requires share { 0 < L.parts }
    ensures gather { (r : RankTree) → IfOk result (λ b.
        b.0 ≡ gathered_over T.grid rank (slice_index_or shared.now.trees.now rank r)) }
    ensures sources { IfOk result (λ b. IsPermutation (others rank (rank_count T.grid)) b.1.items) }
{
    post.settle(shared.rt, shared.inboxes, tokens);
    let sources = post.sources().to_vec(shared.alloc)?;
    let ranks = shared.inboxes.len() as u32;
    let own = &shared.trees[rank as usize];
    let mut steps = Steps::<L>::new(blank);
    let gather = RankGather::open(shared.alloc, rank, ranks, own, shared.theta, &mut steps)?;
    let gather = absorb_by_source(shared.alloc, gather, post.into_parcels(), &mut steps)?;
    Ok((gather, sources))
}
