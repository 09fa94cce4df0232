ghost use Rattle.std.specs.Prelude.{◌≡◌, ◌<◌, ◌≤◌, true, All, IfOk, flat_map, length, vec_len};
ghost use Rattle.claim_board.specs.Seats.{IsFresh, IsSeatOf, total_of, was_told};
ghost use Rattle.force_phase.specs.Working.{HasFinished, IsAtWork};

use crate::share::Share;
use claim_board::{Board, Seat};
use group_lists::HasLists;
use kern_types::Typed;
use pf_geom::Edge;
use pf_io::{Gate, Phase};
use pf_num::OutOfMemory;
use std::alloc::Global;
use std::thread;
use std::thread::Threads;

/// A worker of the phase: its seat at the board, and its share of the groups.
#[derive(Drop)]
pub(crate) struct Worker {
    pub(crate) seat: Seat,
    pub(crate) share: Share,
}

/// What all workers of the phase use.
#[derive(Drop)]
pub(crate) struct Shared<'a, H, G> {
    pub(crate) alloc: Global,
    pub(crate) board: &'a Board,
    pub(crate) t: &'a Typed,
    pub(crate) lists: &'a [H],
    pub(crate) edge: Edge,
    pub(crate) gate: &'a G,
}

/// A worker for each seat.
pub(crate) fn workers_of<H: HasLists, G: Gate>(
    shared: &Shared<'_, H, G>,
    seats: Vec<Seat>,
) -> Result<Vec<Worker>, OutOfMemory>
    requires of_board { All (IsSeatOf shared.now.board.now) seats.items }
    requires fresh { All IsFresh seats.items }
    ensures all { IfOk result (λ workers. vec_len workers ≡ vec_len seats) }
    ensures at_work { IfOk result (λ workers. All (IsAtWork shared.now.board.now) workers.items) }
    ensures finished { IfOk result (λ workers. All (λ w. HasFinished shared.now.edge shared.now.t.now
        (flat_map H.has shared.now.lists.now) w.share) workers.items) }
{
    let mut workers = Vec::with_capacity(shared.alloc, seats.len())?;
    for seat in seats {
        let share = Share::nothing(shared.alloc, shared.t, shared.edge)?;
        workers.push(Worker { seat, share })?;
    }
    Ok(workers)
}

/// Lets each worker claim groups and finish them, in a thread of its own, until none is left.
pub(crate) fn work_in_threads<R: Threads + Sync, H: HasLists + Sync, G: Gate>(
    rt: &R,
    shared: &Shared<'_, H, G>,
    workers: &mut [Worker],
)
    requires some { 0 < length workers.old }
    requires most { length workers.old ≤ 64 }
    requires total { total_of shared.now.board.now ≡ length (flat_map H.has shared.now.lists.now) }
    requires at_work { All (IsAtWork shared.now.board.now) workers.old }
    requires finished { All (λ w. HasFinished shared.now.edge shared.now.t.now
        (flat_map H.has shared.now.lists.now) w.share) workers.old }
    ensures told { All (λ w. was_told w.seat ≡ true) workers.new }
    ensures at_work { All (IsAtWork shared.now.board.now) workers.new }
    ensures finished { All (λ w. HasFinished shared.now.edge shared.now.t.now
        (flat_map H.has shared.now.lists.now) w.share) workers.new }
{
    let count = workers.len();
    thread::for_each_mut(
        rt,
        workers,
        count,
        &|number, worker|
            requires number { number < 64 }
            requires total { total_of shared.now.board.now ≡ length (flat_map H.has shared.now.lists.now) }
            requires at_work { IsAtWork shared.now.board.now worker.old }
            requires finished { HasFinished shared.now.edge shared.now.t.now
                (flat_map H.has shared.now.lists.now) worker.old.share }
        { work_through(shared, number, worker) },
    );
}

// Passes the gate, then claims groups and finishes each, until none is left.
fn work_through<H: HasLists, G: Gate>(shared: &Shared<'_, H, G>, number: usize, worker: &mut Worker)
    requires number { number < 64 }
    requires total { total_of shared.now.board.now ≡ length (flat_map H.has shared.now.lists.now) }
    requires at_work { IsAtWork shared.now.board.now worker.old }
    requires finished { HasFinished shared.now.edge shared.now.t.now
        (flat_map H.has shared.now.lists.now) worker.old.share }
    ensures told { was_told worker.new.seat ≡ true }
    ensures at_work { IsAtWork shared.now.board.now worker.new }
    ensures finished { HasFinished shared.now.edge shared.now.t.now
        (flat_map H.has shared.now.lists.now) worker.new.share }
{
    shared.gate.pass(number as u32, Phase::Forces);
    while let Some(group) = shared.board.claim(&mut worker.seat) {
        worker
            .share
            .take_on(shared.alloc, shared.t, shared.lists, group);
    }
}
