// Posts in threads: each rank at a desk of its own.
ghost use Rattle.std.specs.Prelude.{◌≡◌, [], ◌∷◌, length, All, IfOk, IsSomeAnd, OnOk};
ghost use Rattle.let_inbox.specs.Sources.{others};
ghost use Rattle.all_to_all.specs.Posts.{state_of, fresh_state, IsPostOf};
ghost use Rattle.worker_examples.specs.Desks.{CanSend, HasSent, CanSettle};

use all_to_all::{Post, no_tokens, open};
use let_inbox::{Inbox, Named, Spent};
use pf_num::OutOfMemory;
use std::alloc::Global;
use std::sync::Wait;
use std::thread;
use std::thread::Threads;

// A rank's post in a thread, what it sends there, and the tokens with which it is settled there.
#[derive(Drop)]
pub(crate) struct Desk<M> {
    pub(crate) post: Post<M>,
    pub(crate) parcels: Option<Vec<M>>,
    pub(crate) tokens: Option<Vec<Spent<M>>>,
}

fn send_one<M: Named + Drop, R: Wait>(rt: &R, inboxes: &[Inbox<M>], desk: &mut Desk<M>)
    requires { IsSomeAnd desk.old.parcels (λ ps.
        CanSend M.source M.target M.has_terms inboxes.now desk.old.post ps.items) }
    ensures { HasSent M.source M.target M.has_terms inboxes.now desk.new.post }
{
    let Some(parcels) = desk.parcels.take() else {
        unreachable!()
    };
    desk.post.send(rt, inboxes, parcels);
    desk.post.receive(rt, inboxes);
}

fn settle_one<M: Named + Drop, R: Wait>(rt: &R, inboxes: &[Inbox<M>], desk: &mut Desk<M>)
    requires { IsSomeAnd desk.old.tokens (λ ts.
        CanSettle M.source M.target M.has_terms inboxes.now desk.old.post ts.items) }
    ensures { IsPostOf M.source M.target M.has_terms inboxes.now desk.new.post }
{
    let Some(tokens) = desk.tokens.take() else {
        unreachable!()
    };
    desk.post.settle(rt, inboxes, tokens);
}

// Each rank sends its parcels in a thread, and takes what has come.
pub(crate) fn send_all<M: Named + Drop + Send + Sync, R: Threads + Wait + Sync>(
    rt: &R,
    inboxes: &[Inbox<M>],
    desks: &mut [Desk<M>],
)
    requires { All (λ d. IsSomeAnd d.parcels (λ ps.
        CanSend M.source M.target M.has_terms inboxes.now d.post ps.items)) desks.old }
    ensures { All (λ d. HasSent M.source M.target M.has_terms inboxes.now d.post) desks.new }
{
    thread::for_each_mut(rt, desks, 2, &|_, desk| send_one(rt, inboxes, desk));
}

// Each rank takes all the rest in a thread.
pub(crate) fn settle_all<M: Named + Drop + Send + Sync, R: Threads + Wait + Sync>(
    rt: &R,
    inboxes: &[Inbox<M>],
    desks: &mut [Desk<M>],
)
    requires { All (λ d. IsSomeAnd d.tokens (λ ts.
        CanSettle M.source M.target M.has_terms inboxes.now d.post ts.items)) desks.old }
    ensures { All (λ d. IsPostOf M.source M.target M.has_terms inboxes.now d.post) desks.new }
{
    thread::for_each_mut(rt, desks, 2, &|_, desk| settle_one(rt, inboxes, desk));
}

// Gives each of two ranks the tokens of what the other sent.
pub(crate) fn hand_over_between<M: Named + Drop>(
    alloc: Global,
    inboxes: &[Inbox<M>],
    first: &mut Desk<M>,
    second: &mut Desk<M>,
) -> Result<(), OutOfMemory>
    requires two { length inboxes.now ≡ 2 }
    requires ranks { ((state_of first.old.post).rank ≡ 0) × ((state_of second.old.post).rank ≡ 1) }
    requires first { HasSent M.source M.target M.has_terms inboxes.now first.old.post }
    requires second { HasSent M.source M.target M.has_terms inboxes.now second.old.post }
    ensures first { OnOk result (IsSomeAnd first.new.tokens (λ ts.
        CanSettle M.source M.target M.has_terms inboxes.now first.new.post ts.items)) }
    ensures second { OnOk result (IsSomeAnd second.new.tokens (λ ts.
        CanSettle M.source M.target M.has_terms inboxes.now second.new.post ts.items)) }
{
    let mut lists = no_tokens(alloc, inboxes)?;
    first.post.hand_over(alloc, inboxes, &mut lists)?;
    second.post.hand_over(alloc, inboxes, &mut lists)?;
    let Some((for_first, for_second)) = two_of(lists) else {
        unreachable!()
    };
    first.tokens = Some(for_first);
    second.tokens = Some(for_second);
    Ok(())
}

// The two elements of a list.
pub(crate) fn two_of<T: Drop>(mut items: Vec<T>) -> Option<(T, T)>
    requires { length items.items ≡ 2 }
    ensures { IsSomeAnd result (λ r. items.items ≡ r.0 ∷ r.1 ∷ []) }
{
    let second = items.pop()?;
    let first = items.pop()?;
    Some((first, second))
}

fn both<T: Drop>(alloc: Global, first: T, second: T) -> Result<Vec<T>, OutOfMemory>
    ensures { IfOk result (λ items. items.items ≡ first ∷ second ∷ []) }
{
    let mut items = Vec::with_capacity(alloc, 2)?;
    items.push(first)?;
    items.push(second)?;
    Ok(items)
}

// The inboxes of two ranks, and their posts.
pub(crate) fn open_two<M: Named + Drop>(
    alloc: Global,
) -> Result<(Vec<Inbox<M>>, Post<M>, Post<M>), OutOfMemory>
    ensures two { IfOk result (λ r. length r.0.items ≡ 2) }
    ensures first { IfOk result (λ r. IsPostOf M.source M.target M.has_terms r.0.items r.1) }
    ensures second { IfOk result (λ r. IsPostOf M.source M.target M.has_terms r.0.items r.2) }
    ensures fresh { IfOk result (λ r. (state_of r.1 ≡ fresh_state 0 2) × (state_of r.2 ≡ fresh_state 1 2)) }
{
    let (inboxes, posts) = open(alloc, 2)?;
    let Some((first, second)) = two_of(posts) else {
        unreachable!()
    };
    Ok((inboxes, first, second))
}

// The desk of one of two ranks, with its parcel for the other.
pub(crate) fn desk_of<M: Named + Drop>(
    alloc: Global,
    inboxes: &[Inbox<M>],
    post: Post<M>,
    parcel: M,
) -> Result<Desk<M>, OutOfMemory>
    requires of_inboxes { IsPostOf M.source M.target M.has_terms inboxes.now post }
    requires fresh { state_of post ≡ fresh_state (M.source parcel) (length inboxes.now) }
    requires target { others (M.source parcel) (length inboxes.now) ≡ M.target parcel ∷ [] }
    requires terms { M.has_terms parcel }
    ensures { IfOk result (λ d. IsSomeAnd d.parcels (λ ps.
        CanSend M.source M.target M.has_terms inboxes.now d.post ps.items)) }
{
    let mut parcels = Vec::with_capacity(alloc, 1)?;
    parcels.push(parcel)?;
    Ok(Desk {
        post,
        parcels: Some(parcels),
        tokens: None,
    })
}

// Two ranks send in two threads.
pub(crate) fn send_both<M: Named + Drop + Send + Sync, R: Threads + Wait + Sync>(
    rt: &R,
    alloc: Global,
    inboxes: &[Inbox<M>],
    first: Desk<M>,
    second: Desk<M>,
) -> Result<(Desk<M>, Desk<M>), OutOfMemory>
    requires first { IsSomeAnd first.parcels (λ ps.
        CanSend M.source M.target M.has_terms inboxes.now first.post ps.items) }
    requires second { IsSomeAnd second.parcels (λ ps.
        CanSend M.source M.target M.has_terms inboxes.now second.post ps.items) }
    ensures first { IfOk result (λ r. HasSent M.source M.target M.has_terms inboxes.now r.0.post) }
    ensures second { IfOk result (λ r. HasSent M.source M.target M.has_terms inboxes.now r.1.post) }
{
    let mut desks = both(alloc, first, second)?;
    send_all(rt, inboxes, &mut desks);
    let Some(pair) = two_of(desks) else {
        unreachable!()
    };
    Ok(pair)
}

// Two ranks take all the rest in two threads.
pub(crate) fn settle_both<M: Named + Drop + Send + Sync, R: Threads + Wait + Sync>(
    rt: &R,
    alloc: Global,
    inboxes: &[Inbox<M>],
    first: Desk<M>,
    second: Desk<M>,
) -> Result<(Desk<M>, Desk<M>), OutOfMemory>
    requires first { IsSomeAnd first.tokens (λ ts.
        CanSettle M.source M.target M.has_terms inboxes.now first.post ts.items) }
    requires second { IsSomeAnd second.tokens (λ ts.
        CanSettle M.source M.target M.has_terms inboxes.now second.post ts.items) }
    ensures first { IfOk result (λ r. IsPostOf M.source M.target M.has_terms inboxes.now r.0.post) }
    ensures second { IfOk result (λ r. IsPostOf M.source M.target M.has_terms inboxes.now r.1.post) }
{
    let mut desks = both(alloc, first, second)?;
    settle_all(rt, inboxes, &mut desks);
    let Some(pair) = two_of(desks) else {
        unreachable!()
    };
    Ok(pair)
}
