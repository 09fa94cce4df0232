ghost use Rattle.std.specs.Prelude.{◌≡◌, ◌≤◌, length, map, All, IfOk};
ghost use Rattle.std.specs.List.{range_with_len, zip};
ghost use Rattle.pf_model.specs.Division.{rank_count};
ghost use Rattle.exchange.specs.States.{left_with};
ghost use Rattle.all_to_all.specs.Posts.{state_of, fresh_state};
ghost use Rattle.exchange_phase.specs.Leaving.{leaver_of, CanLeave, HasLeft, HaveLeft, HaveSent, ArePartsOf};
ghost use Rattle.exchange_phase.specs.Packages.{ArePosts};

use all_to_all::Post;
use exchange::{Parcel, RankState, leave};
use let_inbox::Inbox;
use multisection::Domains;
use pf_io::{Gate, Phase};
use pf_num::OutOfMemory;
use rank_workers::drive;
use std::alloc::{AllocError, Global};
use std::sync::Wait;
use std::thread::Threads;

/// A rank that leaves: what it has, its post, and whether it found no memory.
#[derive(Drop)]
pub(crate) struct Leaver {
    state: RankState,
    post: Post<Parcel>,
    refused: bool,
}

/// Phase Leave: each rank takes out what it no longer owns, puts one parcel for every other rank, and takes what has
/// arrived.
pub(crate) fn leave_all<R: Threads + Wait + Sync, G: Gate>(
    rt: &R,
    alloc: Global,
    workers: u32,
    gate: &G,
    domains: &Domains,
    inboxes: &[Inbox<Parcel>],
    states: Vec<RankState>,
    posts: Vec<Post<Parcel>>,
) -> Result<(Vec<RankState>, Vec<Post<Parcel>>), OutOfMemory>
    requires workers { 1 ≤ workers }
    requires ranks { map (λ h. h.rank) states.items ≡ range_with_len 0 (length inboxes.now) }
    requires count { length inboxes.now ≡ rank_count domains.now.cuts.grid }
    requires posts { ArePosts inboxes.now posts.items }
    requires fresh { map state_of posts.items
        ≡ map (λ rank. fresh_state rank (length inboxes.now)) (range_with_len 0 (length inboxes.now)) }
    ensures left { IfOk result (λ r. r.0.items ≡ map (left_with domains.now.cuts) states.items) }
    ensures sent { IfOk result (λ r. HaveSent domains.now.cuts inboxes.now states.items r.1.items) }
{
    let leavers = paired(alloc, states, posts)?;
    let after = leave_each(rt, alloc, workers, gate, domains, inboxes, leavers)?;
    parted(alloc, after)
}

// Drives the ranks.
fn leave_each<R: Threads + Wait + Sync, G: Gate>(
    rt: &R,
    alloc: Global,
    workers: u32,
    gate: &G,
    domains: &Domains,
    inboxes: &[Inbox<Parcel>],
    leavers: Vec<Leaver>,
) -> Result<Vec<Leaver>, OutOfMemory>
    requires workers { 1 ≤ workers }
    requires each { All (CanLeave domains.now.cuts inboxes.now) leavers.items }
    ensures { IfOk result (λ after. HaveLeft domains.now.cuts inboxes.now leavers.items after.items) }
{
    let work = move |_: usize, leaver: &mut Leaver|
        requires { CanLeave domains.now.cuts inboxes.now leaver.now }
        ensures { HasLeft domains.entry.now.cuts inboxes.entry.now leaver.entry.now leaver.exit.now }
    { leaver.leave(rt, alloc, domains, inboxes) };
    drive(rt, alloc, workers, gate, Phase::Leave, leavers, &work)
}

// Each rank with its post.
fn paired(
    alloc: Global,
    states: Vec<RankState>,
    posts: Vec<Post<Parcel>>,
) -> Result<Vec<Leaver>, AllocError>
    ensures { IfOk result (λ leavers. leavers.items ≡ map leaver_of (zip states.items posts.items)) }
{
    states
        .into_iter()
        .zip(posts)
        .map(|(state, post)| Leaver {
            state,
            post,
            refused: false,
        })
        .collect(alloc)
}

// What ranks have after they left, and their posts, if each found memory.
fn parted(
    alloc: Global,
    leavers: Vec<Leaver>,
) -> Result<(Vec<RankState>, Vec<Post<Parcel>>), OutOfMemory>
    ensures { IfOk result (λ r. ArePartsOf leavers.items r.0.items r.1.items) }
{
    let mut states = Vec::with_capacity(alloc, leavers.len())?;
    let mut posts = Vec::with_capacity(alloc, leavers.len())?;
    for leaver in leavers {
        let Leaver {
            state,
            post,
            refused,
        } = leaver;
        if refused {
            return Err(OutOfMemory);
        }
        states.push(state)?;
        posts.push(post)?;
    }
    Ok((states, posts))
}

impl Leaver {
    // Leaves, and takes what has arrived.
    fn leave<R: Wait>(
        &mut self,
        rt: &R,
        alloc: Global,
        domains: &Domains,
        inboxes: &[Inbox<Parcel>],
    )
        requires { CanLeave domains.now.cuts inboxes.now self.old }
        ensures { HasLeft domains.now.cuts inboxes.now self.old self.new }
    {
        let Ok(parcels) = leave(alloc, &mut self.state, domains) else {
            self.refused = true;
            return;
        };
        self.post.send(rt, inboxes, parcels);
        self.post.receive(rt, inboxes);
    }
}
