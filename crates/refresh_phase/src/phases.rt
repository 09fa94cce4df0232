ghost use Rattle.std.specs.Prelude.{◌≡◌, ◌<◌, ◌≤◌, ℕ, List, IfOk, length, map};
ghost use Rattle.std.specs.List.{zip};
ghost use Rattle.std.specs.List.Sorted.{IsStrictlyIncreasing};
ghost use Rattle.pf_model.specs.Division.{rank_count};
ghost use Rattle.pf_model.specs.Particle.{Particle};
ghost use Rattle.pf_model.specs.Particles.{HaveSameIds};
ghost use Rattle.tree_phase.specs.Trees.{AreArrivals, EachByRank};
ghost use Rattle.refresh_phase.specs.Exchange.{IsFresh, HasSent, CanAllSettle};
ghost use Rattle.refresh_phase.specs.Kept.{AreKept};
ghost use Rattle.refresh_phase.specs.Phases.{CanMove, HasMoved, HaveMoved, CanSettleRank, HasSettled, HaveSettled};
ghost use Rattle.refresh_phase.specs.Phases.{mover_of, renewer_of, AreParted, AreRenewed, AreSettled};
ghost use Rattle.refresh_phase.specs.Renewing.{CanRenew, IsKeptSince, moved_to};

use crate::kept_rank::KeptRank;
use crate::moving::{Mover, Shared, send};
use crate::renewing::{Renewer, settle};
use all_to_all::{Post, open};
use let_inbox::{Inbox, Spent};
use list_reuse::Refresh;
use pf_io::{Gate, Phase};
use pf_model::{Body, Terms};
use pf_num::OutOfMemory;
use rank_workers::drive;
use std::alloc::Global;
use std::sync::Wait;
use std::thread::Threads;
use tree_phase::Arrivals;

/// The ranks with their lists renewed, and in which order refreshes came, by rank.
#[derive(Drop)]
pub struct Refreshed {
    pub ranks: Vec<KeptRank>,
    pub arrivals: Vec<Arrivals>,
}

/// The phases Trees and Gather of a step without a build, rank r in worker r mod W: the ranks of a build with their
/// octrees and their lists renewed where all particles, which are given by ascending id, are now. Where any rank finds
/// no memory in a phase, no later one begins.
pub fn refresh_all<'x, R: Threads + Wait + Sync, T: Terms + Send + Sync, G: Gate>(
    rt: &'x R,
    alloc: Global,
    workers: u32,
    gate: &G,
    ranks: Vec<KeptRank>,
    now: &'x [Body],
) -> Result<Refreshed, OutOfMemory>
    requires workers { 1 ≤ workers }
    requires ascending { IsStrictlyIncreasing (map (λ p. p.id) now.now) }
    requires same { HaveSameIds T.particles now.now }
    requires kept { (limit : ℕ) × (before : List Particle) × AreKept limit T.theta T.grid T.particles before ranks.items }
    ensures kept { (limit : ℕ) (before : List Particle) → AreKept limit T.theta T.grid T.particles before ranks.items
        → IfOk result (λ b. AreKept limit T.theta T.grid T.particles now.now b.ranks.items) }
    ensures arrivals { IfOk result (λ b. AreArrivals (rank_count T.grid) b.arrivals.items) }
{
    let (inboxes, posts) = open_all(alloc, ranks.len() as u32)?;
    let shared = Shared {
        rt,
        alloc,
        bodies: now,
        inboxes: &inboxes,
    };
    let (ranks, posts) = move_all::<R, T, G>(&shared, workers, gate, ranks, posts)?;
    let (posts, tokens) = with_tokens::<T>(alloc, &inboxes, now, posts)?;
    let (ranks, arrivals) = renew_all::<R, T, G>(&shared, workers, gate, ranks, posts, tokens)?;
    Ok(Refreshed { ranks, arrivals })
}

// The inboxes of the ranks, and their posts.
fn open_all(
    alloc: Global,
    ranks: u32,
) -> Result<(Vec<Inbox<Refresh>>, Vec<Post<Refresh>>), OutOfMemory>
    ensures inboxes { IfOk result (λ b. length b.0.items ≡ ranks) }
    ensures posts { IfOk result (λ b. length b.1.items ≡ ranks) }
    ensures fresh { IfOk result (λ b. EachByRank (IsFresh b.0.items) b.1.items) }
{
    let (inboxes, posts) = open(alloc, ranks)?;
    Ok((inboxes, posts))
}

// The posts of the ranks when each has sent its refreshes, with the tokens of the refreshes for each.
fn with_tokens<T: Terms>(
    alloc: Global,
    inboxes: &[Inbox<Refresh>],
    now: &[Body],
    posts: Vec<Post<Refresh>>,
) -> Result<(Vec<Post<Refresh>>, Vec<Vec<Spent<Refresh>>>), OutOfMemory>
    requires counted { length posts.items ≡ length inboxes.now }
    requires sent { EachByRank (HasSent T.theta T.grid T.particles now.now inboxes.now) posts.items }
    ensures posts { IfOk result (λ b. length b.0.items ≡ length inboxes.now) }
    ensures tokens { IfOk result (λ b. length b.1.items ≡ length inboxes.now) }
    ensures settle { IfOk result (λ b. CanAllSettle T.theta T.grid T.particles now.now inboxes.now b.0.items b.1.items) }
{
    let (posts, tokens) = all_to_all::with_tokens(alloc, inboxes, posts)?;
    Ok((posts, tokens))
}

// The phase Trees: the ranks with their octrees moved, and their posts when each has sent its refreshes.
fn move_all<R: Threads + Wait + Sync, T: Terms + Send + Sync, G: Gate>(
    shared: &Shared<'_, R>,
    workers: u32,
    gate: &G,
    ranks: Vec<KeptRank>,
    posts: Vec<Post<Refresh>>,
) -> Result<(Vec<KeptRank>, Vec<Post<Refresh>>), OutOfMemory>
    requires workers { 1 ≤ workers }
    requires ascending { IsStrictlyIncreasing (map (λ p. p.id) shared.now.bodies.now) }
    requires same { HaveSameIds T.particles shared.now.bodies.now }
    requires inboxes { length shared.now.inboxes.now ≡ rank_count T.grid }
    requires counted { length ranks.items ≡ rank_count T.grid }
    requires posts { length posts.items ≡ rank_count T.grid }
    requires kept { EachByRank (IsKeptSince T.theta T.grid T.particles) ranks.items }
    requires fresh { EachByRank (IsFresh shared.now.inboxes.now) posts.items }
    ensures moved { IfOk result (λ b. b.0.items ≡ map (moved_to shared.now.bodies.now) ranks.items) }
    ensures posts { IfOk result (λ b. length b.1.items ≡ rank_count T.grid) }
    ensures sent { IfOk result (λ b.
        EachByRank (HasSent T.theta T.grid T.particles shared.now.bodies.now shared.now.inboxes.now) b.1.items) }
{
    let movers = movers_of(shared.alloc, ranks, posts)?;
    let after = move_each::<R, T, G>(shared, workers, gate, movers)?;
    parted(shared.alloc, after)
}

fn move_each<R: Threads + Wait + Sync, T: Terms + Send + Sync, G: Gate>(
    shared: &Shared<'_, R>,
    workers: u32,
    gate: &G,
    movers: Vec<Mover>,
) -> Result<Vec<Mover>, OutOfMemory>
    requires workers { 1 ≤ workers }
    requires ascending { IsStrictlyIncreasing (map (λ p. p.id) shared.now.bodies.now) }
    requires same { HaveSameIds T.particles shared.now.bodies.now }
    requires inboxes { length shared.now.inboxes.now ≡ rank_count T.grid }
    requires counted { length movers.items ≡ rank_count T.grid }
    requires can { EachByRank (CanMove T.theta T.grid T.particles shared.now.inboxes.now) movers.items }
    ensures { IfOk result (λ after.
        HaveMoved T.theta T.grid T.particles shared.now.bodies.now shared.now.inboxes.now movers.items after.items) }
{
    let work = |rank: usize, mover: &mut Mover|
        requires ascending { IsStrictlyIncreasing (map (λ p. p.id) shared.now.bodies.now) }
        requires same { HaveSameIds T.particles shared.now.bodies.now }
        requires inboxes { length shared.now.inboxes.now ≡ rank_count T.grid }
        requires can { CanMove T.theta T.grid T.particles shared.now.inboxes.now rank mover.now }
        requires few { rank < length shared.now.inboxes.now }
        ensures { HasMoved T.theta T.grid T.particles shared.entry.now.bodies.now shared.entry.now.inboxes.now rank
            mover.entry.now mover.exit.now }
    {
        send::<R, T>(shared, rank, mover);
    };
    drive(
        shared.rt,
        shared.alloc,
        workers,
        gate,
        Phase::Trees,
        movers,
        &work,
    )
}

// The phase Gather: the ranks with their lists renewed, and in which order refreshes came, if each found memory.
fn renew_all<R: Threads + Wait + Sync, T: Terms + Send + Sync, G: Gate>(
    shared: &Shared<'_, R>,
    workers: u32,
    gate: &G,
    ranks: Vec<KeptRank>,
    posts: Vec<Post<Refresh>>,
    tokens: Vec<Vec<Spent<Refresh>>>,
) -> Result<(Vec<KeptRank>, Vec<Arrivals>), OutOfMemory>
    requires workers { 1 ≤ workers }
    requires same { HaveSameIds T.particles shared.now.bodies.now }
    requires inboxes { length shared.now.inboxes.now ≡ rank_count T.grid }
    requires counted { length ranks.items ≡ rank_count T.grid }
    requires posts { length posts.items ≡ rank_count T.grid }
    requires tokens { length tokens.items ≡ rank_count T.grid }
    requires renew { EachByRank (CanRenew T.theta T.grid T.particles shared.now.bodies.now) ranks.items }
    requires settle { CanAllSettle T.theta T.grid T.particles shared.now.bodies.now shared.now.inboxes.now
        posts.items tokens.items }
    ensures { IfOk result (λ b. AreSettled T.theta T.grid T.particles shared.now.bodies.now
        ranks.items b.0.items b.1.items) }
{
    let renewers = renewers_of(shared.alloc, ranks, posts, tokens)?;
    let after = renew_each::<R, T, G>(shared, workers, gate, renewers)?;
    renewed(shared.alloc, after)
}

fn renew_each<R: Threads + Wait + Sync, T: Terms + Send + Sync, G: Gate>(
    shared: &Shared<'_, R>,
    workers: u32,
    gate: &G,
    renewers: Vec<Renewer>,
) -> Result<Vec<Renewer>, OutOfMemory>
    requires workers { 1 ≤ workers }
    requires same { HaveSameIds T.particles shared.now.bodies.now }
    requires inboxes { length shared.now.inboxes.now ≡ rank_count T.grid }
    requires counted { length renewers.items ≡ rank_count T.grid }
    requires can { EachByRank (CanSettleRank T.theta T.grid T.particles shared.now.bodies.now shared.now.inboxes.now)
        renewers.items }
    ensures { IfOk result (λ after.
        HaveSettled T.theta T.grid T.particles shared.now.bodies.now renewers.items after.items) }
{
    let work = |rank: usize, renewer: &mut Renewer|
        requires same { HaveSameIds T.particles shared.now.bodies.now }
        requires inboxes { length shared.now.inboxes.now ≡ rank_count T.grid }
        requires can { CanSettleRank T.theta T.grid T.particles shared.now.bodies.now shared.now.inboxes.now rank
            renewer.now }
        requires few { rank < length shared.now.inboxes.now }
        ensures { HasSettled T.theta T.grid T.particles shared.entry.now.bodies.now rank
            renewer.entry.now renewer.exit.now }
    {
        settle::<R, T>(shared, rank, renewer);
    };
    drive(
        shared.rt,
        shared.alloc,
        workers,
        gate,
        Phase::Gather,
        renewers,
        &work,
    )
}

fn movers_of(
    alloc: Global,
    ranks: Vec<KeptRank>,
    posts: Vec<Post<Refresh>>,
) -> Result<Vec<Mover>, OutOfMemory>
    ensures { IfOk result (λ movers. movers.items ≡ map mover_of (zip ranks.items posts.items)) }
{
    let movers = ranks
        .into_iter()
        .zip(posts)
        .map(|(rank, post)| Mover {
            rank,
            post,
            refused: false,
        })
        .collect(alloc)?;
    Ok(movers)
}

// The ranks and their posts, if each found memory.
fn parted(
    alloc: Global,
    movers: Vec<Mover>,
) -> Result<(Vec<KeptRank>, Vec<Post<Refresh>>), OutOfMemory>
    ensures { IfOk result (λ b. AreParted movers.items b.0.items b.1.items) }
{
    let mut ranks = Vec::with_capacity(alloc, movers.len())?;
    let mut posts = Vec::with_capacity(alloc, movers.len())?;
    for mover in movers {
        let Mover {
            rank,
            post,
            refused,
        } = mover;
        if refused {
            return Err(OutOfMemory);
        }
        ranks.push(rank)?;
        posts.push(post)?;
    }
    Ok((ranks, posts))
}

fn renewers_of(
    alloc: Global,
    ranks: Vec<KeptRank>,
    posts: Vec<Post<Refresh>>,
    tokens: Vec<Vec<Spent<Refresh>>>,
) -> Result<Vec<Renewer>, OutOfMemory>
    ensures { IfOk result (λ renewers.
        renewers.items ≡ map renewer_of (zip (zip ranks.items posts.items) tokens.items)) }
{
    let renewers = ranks
        .into_iter()
        .zip(posts)
        .zip(tokens)
        .map(|((rank, post), tokens)| Renewer {
            rank,
            post,
            tokens,
            arrivals: None,
        })
        .collect(alloc)?;
    Ok(renewers)
}

// The ranks and their arrivals, if each found memory.
fn renewed(
    alloc: Global,
    renewers: Vec<Renewer>,
) -> Result<(Vec<KeptRank>, Vec<Arrivals>), OutOfMemory>
    ensures { IfOk result (λ b. AreRenewed renewers.items b.0.items b.1.items) }
{
    let mut ranks = Vec::with_capacity(alloc, renewers.len())?;
    let mut all = Vec::with_capacity(alloc, renewers.len())?;
    for renewer in renewers {
        let Renewer {
            rank,
            post: _,
            tokens: _,
            arrivals,
        } = renewer;
        ranks.push(rank)?;
        all.push(arrivals.ok_or(OutOfMemory)?)?;
    }
    Ok((ranks, all))
}
