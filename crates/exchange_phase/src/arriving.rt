ghost use Rattle.std.specs.Prelude.{◌≡◌, ◌≤◌, Some, length, map, All, IfOk, IfSome};
ghost use Rattle.std.specs.List.{zip};
ghost use Rattle.exchange_phase.specs.Arriving.{arriver_of, due_of, CanSettle, IsSettledFrom, HasSettled, HaveSettled, AreSettledFrom};

use all_to_all::Post;
use exchange::{Parcel, RankState, settle};
use let_inbox::{Inbox, Spent};
use pf_io::{Gate, Phase};
use pf_num::OutOfMemory;
use rank_workers::drive;
use std::alloc::{AllocError, Global};
use std::sync::Wait;
use std::thread::Threads;

/// What a rank that settles has: what is left of its particles, its post, and the tokens of all that was put for it.
#[derive(Drop)]
pub(crate) struct Due {
    state: RankState,
    post: Post<Parcel>,
    tokens: Vec<Spent<Parcel>>,
}

/// A rank that settles, before and after; without either it found no memory.
#[derive(Drop)]
pub(crate) struct Arriver {
    due: Option<Due>,
    after: Option<RankState>,
}

/// Phase Settle: each rank takes the rest of what was put for it, and joins it to what is left.
pub(crate) fn settle_all<R: Threads + Wait + Sync, G: Gate>(
    rt: &R,
    alloc: Global,
    workers: u32,
    gate: &G,
    inboxes: &[Inbox<Parcel>],
    states: Vec<RankState>,
    posts: Vec<Post<Parcel>>,
    tokens: Vec<Vec<Spent<Parcel>>>,
) -> Result<Vec<RankState>, OutOfMemory>
    requires workers { 1 ≤ workers }
    requires each { All (λ t. CanSettle inboxes.now (due_of t)) (zip (zip states.items posts.items) tokens.items) }
    ensures { IfOk result (λ after. AreSettledFrom (map due_of (zip (zip states.items posts.items) tokens.items)) after.items) }
{
    let arrivers = with_tokens(alloc, states, posts, tokens)?;
    let after = settle_each(rt, alloc, workers, gate, inboxes, arrivers)?;
    arrived(alloc, after)
}

// Drives the ranks.
fn settle_each<R: Threads + Wait + Sync, G: Gate>(
    rt: &R,
    alloc: Global,
    workers: u32,
    gate: &G,
    inboxes: &[Inbox<Parcel>],
    arrivers: Vec<Arriver>,
) -> Result<Vec<Arriver>, OutOfMemory>
    requires workers { 1 ≤ workers }
    requires each { All (λ a. IfSome a.due (CanSettle inboxes.now)) arrivers.items }
    ensures { IfOk result (λ after. HaveSettled arrivers.items after.items) }
{
    let work = move |_: usize, arriver: &mut Arriver|
        requires { IfSome arriver.now.due (CanSettle inboxes.now) }
        ensures { HasSettled arriver.entry.now arriver.exit.now }
    { arriver.settle(rt, alloc, inboxes) };
    drive(rt, alloc, workers, gate, Phase::Settle, arrivers, &work)
}

// Each rank with its post and its tokens.
fn with_tokens(
    alloc: Global,
    states: Vec<RankState>,
    posts: Vec<Post<Parcel>>,
    tokens: Vec<Vec<Spent<Parcel>>>,
) -> Result<Vec<Arriver>, AllocError>
    ensures { IfOk result (λ arrivers.
        arrivers.items ≡ map arriver_of (zip (zip states.items posts.items) tokens.items)) }
{
    states
        .into_iter()
        .zip(posts)
        .zip(tokens)
        .map(|((state, post), tokens)| Arriver {
            due: Some(Due {
                state,
                post,
                tokens,
            }),
            after: None,
        })
        .collect(alloc)
}

// What ranks have after they settled, if each found memory.
fn arrived(alloc: Global, arrivers: Vec<Arriver>) -> Result<Vec<RankState>, OutOfMemory>
    ensures { IfOk result (λ after. map (λ a. a.after) arrivers.items ≡ map Some after.items) }
{
    let mut ranks = Vec::with_capacity(alloc, arrivers.len())?;
    for arriver in arrivers {
        let Arriver { due: _, after } = arriver;
        let Some(after) = after else {
            return Err(OutOfMemory);
        };
        ranks.push(after)?;
    }
    Ok(ranks)
}

impl Arriver {
    fn settle<R: Wait>(&mut self, rt: &R, alloc: Global, inboxes: &[Inbox<Parcel>])
        requires { IfSome self.old.due (CanSettle inboxes.now) }
        ensures { HasSettled self.old self.new }
    {
        if let Some(due) = self.due.take() {
            self.after = due.settle(rt, alloc, inboxes).ok();
        }
    }
}

impl Due {
    // Takes the rest, and joins all that has come to what is left.
    fn settle<R: Wait>(
        self,
        rt: &R,
        alloc: Global,
        inboxes: &[Inbox<Parcel>],
    ) -> Result<RankState, OutOfMemory>
        requires { CanSettle inboxes.now self }
        ensures { IfOk result (IsSettledFrom self) }
    {
        let Due {
            state,
            mut post,
            tokens,
        } = self;
        post.settle(rt, inboxes, tokens);
        settle(alloc, state, post.into_parcels())
    }
}
