ghost use Rattle.std.specs.Prelude.{◌≡◌, ◌<◌, ◌≤◌, Some, IfOk, IfSome, length, map};
ghost use Rattle.std.specs.List.{zip};
ghost use Rattle.multisection.specs.Regions.{AreTargets};
ghost use Rattle.pf_model.specs.Division.{rank_count};
ghost use Rattle.tree_phase.specs.Exchange.{IsFresh, HasSent, HasGrown, CanAllSettle, Waits, HasEnded};
ghost use Rattle.tree_phase.specs.Exchange.{waiting, received};
ghost use Rattle.tree_phase.specs.Shared.{AreGrounds};
ghost use Rattle.tree_phase.specs.Trees.{AreArrivals, AreGathersOver, AreRankTrees, AreTreesOf, EachByRank};
ghost use Rattle.tree_phase.specs.Trees.{HaveGathered, HaveOwn, HaveSentAll};

use crate::arrivals::Arrivals;
use crate::gathering::{Gathering, Receiver, receive};
use crate::growing::{Grower, Growing, grow};
use crate::rank_gather::RankGather;
use crate::rank_tree::RankTree;
use all_to_all::{Post, open};
use essential_tree::TreeParcel;
use exchange::RankState;
use let_inbox::{Inbox, Spent};
use multisection::Domains;
use pf_io::{Gate, Phase};
use pf_model::{MOST_GROUP, Terms, Theta};
use pf_num::OutOfMemory;
use rank_workers::drive;
use std::alloc::Global;
use std::sync::Wait;
use std::thread::Threads;

/// The trees of the ranks, what each rank gathered from all others over its tree, and in which order it came, by rank.
#[derive(Drop)]
pub struct Gathered<T: Terms> {
    pub trees: Vec<RankTree>,
    pub gathers: Vec<RankGather<T>>,
    pub arrivals: Vec<Arrivals>,
}

/// The phases Trees and Gather, rank r in worker r mod W: what each rank gathers from all others, absorbed by source.
/// Where any rank finds no memory in a phase, no later one begins.
pub fn gather_all<'x, R: Threads + Wait + Sync, T: Terms + Send + Sync, G: Gate>(
    rt: &'x R,
    alloc: Global,
    workers: u32,
    gate: &G,
    ranks: &'x [RankState],
    domains: &'x Domains,
    t: Theta,
    limit: u32,
) -> Result<Gathered<T>, OutOfMemory>
    requires workers { 1 ≤ workers }
    requires theta { t ≡ T.theta }
    requires own { HaveOwn T.grid T.particles ranks.now }
    requires targets { AreTargets T.grid T.particles domains.now }
    requires some { 1 ≤ limit }
    requires most { limit ≤ MOST_GROUP }
    ensures trees { IfOk result (λ b. AreTreesOf limit T.grid T.particles b.trees.items) }
    ensures sent { IfOk result (λ b. EachByRank (HaveSentAll T.theta T.grid T.particles) b.trees.items) }
    ensures over { IfOk result (λ b. AreGathersOver T.grid b.trees.items b.gathers.items) }
    ensures gathers { IfOk result (λ b. HaveGathered limit T.grid T.particles b.gathers.items) }
    ensures arrivals { IfOk result (λ b. AreArrivals (rank_count T.grid) b.arrivals.items) }
{
    let (inboxes, posts) = open_all(alloc, ranks.len() as u32)?;
    let growing = Growing {
        rt,
        alloc,
        ranks,
        inboxes: &inboxes,
        domains,
        theta: t,
        limit,
    };
    let (posts, trees) = grow_all(&growing, workers, gate, posts)?;
    let (posts, tokens) = with_tokens::<T>(alloc, &inboxes, posts)?;
    let gathering = Gathering {
        rt,
        alloc,
        trees: &trees,
        inboxes: &inboxes,
        theta: t,
    };
    let (gathers, arrivals) = receive_all(&gathering, workers, gate, posts, tokens)?;
    Ok(Gathered {
        trees,
        gathers,
        arrivals,
    })
}

// The inboxes of the ranks, and their posts.
fn open_all<T: Terms>(
    alloc: Global,
    ranks: u32,
) -> Result<(Vec<Inbox<TreeParcel<T>>>, Vec<Post<TreeParcel<T>>>), OutOfMemory>
    ensures inboxes { IfOk result (λ b. length b.0.items ≡ ranks) }
    ensures posts { IfOk result (λ b. length b.1.items ≡ ranks) }
    ensures fresh { IfOk result (λ b. EachByRank (IsFresh T.theta T.grid T.particles b.0.items) b.1.items) }
{
    let (inboxes, posts) = open(alloc, ranks)?;
    Ok((inboxes, posts))
}

// The posts of the ranks when each has sent its trees, with the tokens of the trees for each.
fn with_tokens<T: Terms>(
    alloc: Global,
    inboxes: &[Inbox<TreeParcel<T>>],
    posts: Vec<Post<TreeParcel<T>>>,
) -> Result<(Vec<Post<TreeParcel<T>>>, Vec<Vec<Spent<TreeParcel<T>>>>), OutOfMemory>
    requires counted { length posts.items ≡ length inboxes.now }
    requires sent { EachByRank (HasSent T.theta T.grid T.particles inboxes.now) posts.items }
    ensures posts { IfOk result (λ b. length b.0.items ≡ length inboxes.now) }
    ensures tokens { IfOk result (λ b. length b.1.items ≡ length inboxes.now) }
    ensures settle { IfOk result (λ b. CanAllSettle T.theta T.grid T.particles inboxes.now b.0.items b.1.items) }
{
    let (posts, tokens) = all_to_all::with_tokens(alloc, inboxes, posts)?;
    Ok((posts, tokens))
}

// The phase Trees: the posts of all ranks when each has sent its trees, and the trees.
fn grow_all<R: Threads + Wait + Sync, T: Terms + Send + Sync, G: Gate>(
    shared: &Growing<'_, R, T>,
    workers: u32,
    gate: &G,
    posts: Vec<Post<TreeParcel<T>>>,
) -> Result<(Vec<Post<TreeParcel<T>>>, Vec<RankTree>), OutOfMemory>
    requires workers { 1 ≤ workers }
    requires grounds { AreGrounds T.theta T.grid T.particles shared.now.theta shared.now.limit
        (length shared.now.inboxes.now) shared.now.ranks.now shared.now.domains.now }
    requires counted { length posts.items ≡ rank_count T.grid }
    requires fresh { EachByRank (IsFresh T.theta T.grid T.particles shared.now.inboxes.now) posts.items }
    ensures posts { IfOk result (λ b. length b.0.items ≡ rank_count T.grid) }
    ensures sent { IfOk result (λ b.
        EachByRank (HasSent T.theta T.grid T.particles shared.now.inboxes.now) b.0.items) }
    ensures trees { IfOk result (λ b. AreTreesOf shared.now.limit T.grid T.particles b.1.items) }
    ensures kept { IfOk result (λ b. EachByRank (HaveSentAll T.theta T.grid T.particles) b.1.items) }
{
    let growers = growers_of(shared.alloc, posts)?;
    let growers = grow_each(shared, workers, gate, growers)?;
    grown(shared.alloc, growers)
}

fn grow_each<R: Threads + Wait + Sync, T: Terms + Send + Sync, G: Gate>(
    shared: &Growing<'_, R, T>,
    workers: u32,
    gate: &G,
    growers: Vec<Grower<T>>,
) -> Result<Vec<Grower<T>>, OutOfMemory>
    requires workers { 1 ≤ workers }
    requires grounds { AreGrounds T.theta T.grid T.particles shared.now.theta shared.now.limit
        (length shared.now.inboxes.now) shared.now.ranks.now shared.now.domains.now }
    requires counted { length growers.items ≡ rank_count T.grid }
    requires fresh { EachByRank (λ rank x.
        IsFresh T.theta T.grid T.particles shared.now.inboxes.now rank x.post) growers.items }
    ensures counted { IfOk result (λ after. length after.items ≡ rank_count T.grid) }
    ensures each { IfOk result (λ after. EachByRank (λ rank x.
        IfSome x.tree (HasGrown T.theta T.grid T.particles shared.now.limit shared.now.inboxes.now rank x.post))
        after.items) }
{
    let work = |rank: usize, grower: &mut Grower<T>|
        requires within { rank < length shared.now.ranks.now }
        requires grounds { AreGrounds T.theta T.grid T.particles shared.now.theta shared.now.limit
            (length shared.now.inboxes.now) shared.now.ranks.now shared.now.domains.now }
        requires post { IsFresh T.theta T.grid T.particles shared.now.inboxes.now rank grower.now.post }
        ensures { IfSome grower.exit.now.tree (HasGrown T.theta T.grid T.particles shared.entry.now.limit
            shared.entry.now.inboxes.now rank grower.exit.now.post) }
    {
        grow(shared, rank, grower);
    };
    drive(
        shared.rt,
        shared.alloc,
        workers,
        gate,
        Phase::Trees,
        growers,
        &work,
    )
}

// The phase Gather: what all ranks gathered, if each found memory.
fn receive_all<R: Threads + Wait + Sync, T: Terms + Send + Sync, G: Gate>(
    shared: &Gathering<'_, R, T>,
    workers: u32,
    gate: &G,
    posts: Vec<Post<TreeParcel<T>>>,
    tokens: Vec<Vec<Spent<TreeParcel<T>>>>,
) -> Result<(Vec<RankGather<T>>, Vec<Arrivals>), OutOfMemory>
    requires workers { 1 ≤ workers }
    requires criterion { shared.now.theta ≡ T.theta }
    requires trees { AreRankTrees T.grid T.particles shared.now.trees.now }
    requires inboxes { length shared.now.inboxes.now ≡ rank_count T.grid }
    requires posts { length posts.items ≡ rank_count T.grid }
    requires tokens { length tokens.items ≡ rank_count T.grid }
    requires settle { CanAllSettle T.theta T.grid T.particles shared.now.inboxes.now posts.items tokens.items }
    ensures gathers { IfOk result (λ b. AreGathersOver T.grid shared.now.trees.now b.0.items) }
    ensures arrivals { IfOk result (λ b. AreArrivals (rank_count T.grid) b.1.items) }
{
    let receivers = receivers_of(shared.alloc, posts, tokens)?;
    let receivers = receive_each(shared, workers, gate, receivers)?;
    all_received(shared.alloc, receivers)
}

fn receive_each<R: Threads + Wait + Sync, T: Terms + Send + Sync, G: Gate>(
    shared: &Gathering<'_, R, T>,
    workers: u32,
    gate: &G,
    receivers: Vec<Receiver<T>>,
) -> Result<Vec<Receiver<T>>, OutOfMemory>
    requires workers { 1 ≤ workers }
    requires criterion { shared.now.theta ≡ T.theta }
    requires trees { AreRankTrees T.grid T.particles shared.now.trees.now }
    requires inboxes { length shared.now.inboxes.now ≡ rank_count T.grid }
    requires counted { length receivers.items ≡ rank_count T.grid }
    requires wait { EachByRank (Waits T.theta T.grid T.particles shared.now.inboxes.now) receivers.items }
    ensures counted { IfOk result (λ after. length after.items ≡ rank_count T.grid) }
    ensures each { IfOk result (λ after. EachByRank (HasEnded T.grid shared.now.trees.now) after.items) }
{
    let work = |rank: usize, receiver: &mut Receiver<T>|
        requires within { rank < length shared.now.trees.now }
        requires criterion { shared.now.theta ≡ T.theta }
        requires trees { AreRankTrees T.grid T.particles shared.now.trees.now }
        requires inboxes { length shared.now.inboxes.now ≡ rank_count T.grid }
        requires waits { Waits T.theta T.grid T.particles shared.now.inboxes.now rank receiver.now }
        ensures { HasEnded T.grid shared.entry.now.trees.now rank receiver.exit.now }
    {
        receive(shared, rank, receiver);
    };
    drive(
        shared.rt,
        shared.alloc,
        workers,
        gate,
        Phase::Gather,
        receivers,
        &work,
    )
}

fn growers_of<T: Terms>(
    alloc: Global,
    posts: Vec<Post<TreeParcel<T>>>,
) -> Result<Vec<Grower<T>>, OutOfMemory>
    ensures { IfOk result (λ growers. map (λ x. x.post) growers.items ≡ posts.items) }
{
    let mut growers = Vec::with_capacity(alloc, posts.len())?;
    for post in posts {
        growers.push(Grower { post, tree: None })?;
    }
    Ok(growers)
}

// The posts of the ranks and their trees, if each found memory.
fn grown<T: Terms>(
    alloc: Global,
    growers: Vec<Grower<T>>,
) -> Result<(Vec<Post<TreeParcel<T>>>, Vec<RankTree>), OutOfMemory>
    ensures posts { IfOk result (λ b. b.0.items ≡ map (λ x. x.post) growers.items) }
    ensures trees { IfOk result (λ b. map (λ r. Some r) b.1.items ≡ map (λ x. x.tree) growers.items) }
{
    let mut posts = Vec::with_capacity(alloc, growers.len())?;
    let mut trees = Vec::with_capacity(alloc, growers.len())?;
    for grower in growers {
        let Grower { post, tree } = grower;
        posts.push(post)?;
        trees.push(tree.ok_or(OutOfMemory)?)?;
    }
    Ok((posts, trees))
}

fn receivers_of<T: Terms>(
    alloc: Global,
    posts: Vec<Post<TreeParcel<T>>>,
    tokens: Vec<Vec<Spent<TreeParcel<T>>>>,
) -> Result<Vec<Receiver<T>>, OutOfMemory>
    ensures { IfOk result (λ receivers. receivers.items ≡ map waiting (zip posts.items tokens.items)) }
{
    let receivers = posts
        .into_iter()
        .zip(tokens)
        .map(|(post, tokens)| Receiver::Waiting(post, tokens))
        .collect(alloc)?;
    Ok(receivers)
}

// What all ranks gathered, if each found memory.
fn all_received<T: Terms>(
    alloc: Global,
    receivers: Vec<Receiver<T>>,
) -> Result<(Vec<RankGather<T>>, Vec<Arrivals>), OutOfMemory>
    ensures received { IfOk result (λ b. map received (zip b.0.items b.1.items) ≡ receivers.items) }
    ensures counted { IfOk result (λ b. length b.0.items ≡ length b.1.items) }
{
    let mut gathers = Vec::with_capacity(alloc, receivers.len())?;
    let mut arrivals = Vec::with_capacity(alloc, receivers.len())?;
    for receiver in receivers {
        let Receiver::Received(gather, arrival) = receiver else {
            return Err(OutOfMemory);
        };
        gathers.push(gather)?;
        arrivals.push(arrival)?;
    }
    Ok((gathers, arrivals))
}
