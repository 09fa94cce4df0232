ghost use Rattle.std.specs.Prelude.{◌≡◌, ℕ, ◌+◌, ◌*◌, ◌^◌, ◌<◌, ◌≤◌, length, IfOk, vec_len, slice_index_or};
ghost use Rattle.std.specs.Fork.{AcceptsAt, ChangesAt, AcceptsEach, ChangesEach};
ghost use Rattle.rank_workers.specs.Hands.{AcceptsHand, ChangesHand};

use crate::hands::{deal, gather};
use pf_io::{Gate, Phase};
use pf_num::OutOfMemory;
use std::alloc::Global;
use std::thread;
use std::thread::Threads;

/// Calls `f(rank, x)` at each rank's x, rank r in worker r mod W, each worker in a thread of its own where one can
/// be made. Each worker passes the gate first. All memory is taken before the join, which can't be refused.
pub fn drive<R: Threads + Sync, X: Send + Drop, G: Gate, F: Fn(usize, &mut X) + Sync>(
    rt: &R,
    alloc: Global,
    workers: u32,
    gate: &G,
    phase: Phase,
    ranks: Vec<X>,
    f: &F,
) -> Result<Vec<X>, OutOfMemory>
    requires some { 1 ≤ workers }
    requires accepts { AcceptsEach F.Fn f.now ranks.items }
    ensures len { IfOk result (λ after. vec_len after ≡ vec_len ranks) }
    ensures each { IfOk result (λ after. ChangesEach F.Fn f.now ranks.items after.items) }
{
    let count = ranks.len();
    let after = Vec::with_capacity(alloc, count)?;
    let mut hands = deal(alloc, workers as usize, ranks)?;
    drive_hands(rt, gate, phase, &mut hands, f);
    Ok(gather(hands, after, count))
}

// Drives each hand in a worker.
fn drive_hands<R: Threads + Sync, X: Send, G: Gate, F: Fn(usize, &mut X) + Sync>(
    rt: &R,
    gate: &G,
    phase: Phase,
    hands: &mut [Vec<X>],
    f: &F,
)
    requires some { 0 < length hands.old }
    requires few { length hands.old < 2 ^ 32 }
    requires accepts { (w : ℕ) (h : _) → w < length hands.old
        → AcceptsHand F.Fn f.now (length hands.old) w (slice_index_or hands.old w h).items }
    ensures { (w : ℕ) (h : _) → w < length hands.old
        → ChangesHand F.Fn f.now (length hands.old) w (slice_index_or hands.old w h).items (slice_index_or hands.new w h).items }
{
    let workers = hands.len();
    let work = move |worker: usize, hand: &mut Vec<X>|
        requires { (worker < 2 ^ 32) × AcceptsHand F.Fn f.now workers worker hand.now.items }
        ensures { ChangesHand F.Fn f.entry.now workers worker hand.entry.now.items hand.exit.now.items }
    {
        gate.pass(worker as u32, phase);
        drive_hand(f, workers, worker, hand);
    };
    thread::for_each_mut(rt, hands, workers, &work);
}

// Calls f at each rank of a worker's hand.
fn drive_hand<X, F: Fn(usize, &mut X)>(f: &F, workers: usize, worker: usize, hand: &mut Vec<X>)
    requires { AcceptsHand F.Fn f.now workers worker hand.old.items }
    ensures { ChangesHand F.Fn f.now workers worker hand.old.items hand.new.items }
{
    for place in 0..hand.len() {
        drive_rank(f, place * workers + worker, &mut hand[place]);
    }
}

fn drive_rank<X, F: Fn(usize, &mut X)>(f: &F, rank: usize, x: &mut X)
    requires { AcceptsAt F.Fn f.now rank x.old }
    ensures { ChangesAt F.Fn f.now rank x.old x.new }
{
    f(rank, x);
}
