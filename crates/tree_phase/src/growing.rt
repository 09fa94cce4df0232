ghost use Rattle.std.specs.Prelude.{◌≡◌, ◌<◌, IfOk, IfSome, length};
ghost use Rattle.tree_phase.specs.Exchange.{IsFresh, HasGrown};
ghost use Rattle.tree_phase.specs.Shared.{AreGrounds};

use crate::rank_tree::RankTree;
use crate::sending::trees_sent;
use all_to_all::Post;
use essential_tree::TreeParcel;
use exchange::RankState;
use let_inbox::Inbox;
use model_laws::some_have_distinct_ids;
use multisection::Domains;
use pf_model::{Steps, Terms, Theta};
use pf_num::OutOfMemory;
use std::alloc::Global;
use std::marker::Brand;
use std::sync::Wait;
use std::sync::ledger::{Blank, Ledger};
use std::thread::Threads;

/// What the ranks share in the phase Trees.
#[derive(Drop)]
pub(crate) struct Growing<'a, R, T: Terms> {
    pub(crate) rt: &'a R,
    pub(crate) alloc: Global,
    pub(crate) ranks: &'a [RankState],
    pub(crate) inboxes: &'a [Inbox<TreeParcel<T>>],
    pub(crate) domains: &'a Domains,
    pub(crate) theta: Theta,
    pub(crate) limit: u32,
}

/// A rank in the phase Trees: its post, and its tree once all is sent. After the phase it has none only if it found
/// no memory.
#[derive(Drop)]
pub(crate) struct Grower<T: Terms> {
    pub(crate) post: Post<TreeParcel<T>>,
    pub(crate) tree: Option<RankTree>,
}

/// A rank builds its tree, sends each other rank its essential tree, and takes what has come.
pub(crate) fn grow<R: Threads + Wait + Sync, T: Terms + Send + Sync>(
    shared: &Growing<'_, R, T>,
    rank: usize,
    grower: &mut Grower<T>,
)
    requires within { rank < length shared.now.ranks.now }
    requires grounds { AreGrounds T.theta T.grid T.particles shared.now.theta shared.now.limit
        (length shared.now.inboxes.now) shared.now.ranks.now shared.now.domains.now }
    requires post { IsFresh T.theta T.grid T.particles shared.now.inboxes.now rank grower.old.post }
    ensures { IfSome grower.new.tree
        (HasGrown T.theta T.grid T.particles shared.now.limit shared.now.inboxes.now rank grower.new.post) }
{
    let rank = rank as u32;
    grower.tree = send_trees::<R, T, Brand>(shared, rank, &mut grower.post, Blank::new(1)).ok();
}

fn send_trees<R: Threads + Wait + Sync, T: Terms + Send + Sync, L: Ledger>(
    shared: &Growing<'_, R, T>,
    rank: u32,
    post: &mut Post<TreeParcel<T>>,
    blank: Blank,
) -> Result<RankTree, OutOfMemory>
    requires within { rank < length shared.now.ranks.now }
    requires grounds { AreGrounds T.theta T.grid T.particles shared.now.theta shared.now.limit
        (length shared.now.inboxes.now) shared.now.ranks.now shared.now.domains.now }
    requires post { IsFresh T.theta T.grid T.particles shared.now.inboxes.now rank post.old }
    requires name { blank.name ≡ L.name }
    requires parts { blank.parts ≡ L.parts }
    requires share { 0 < L.parts }
    ensures { IfOk result (HasGrown T.theta T.grid T.particles shared.now.limit shared.now.inboxes.now rank post.new) }
{
    some_have_distinct_ids();
    let ranks = shared.inboxes.len() as u32;
    let state = &shared.ranks[rank as usize];
    let mut own = RankTree::of(shared.rt, shared.alloc, &state.bodies, shared.limit)?;
    let mut steps = Steps::<L>::new(blank);
    let (parcels, sent) = trees_sent(
        shared.alloc,
        &own.tree,
        rank,
        ranks,
        shared.domains,
        shared.theta,
        &mut steps,
    )?;
    own.sent = sent;
    post.send(shared.rt, shared.inboxes, parcels);
    post.receive(shared.rt, shared.inboxes);
    Ok(own)
}
