ghost use Rattle.std.specs.Prelude.{◌≡◌, ◌+◌, ◌<◌, ◌≤◌, true, length, All, IfOk, IfNone, vec_len};
ghost use Rattle.claim_board.specs.Seats.{claimed_by, was_told, seat_count, IsSeatOf};

use claim_board::{Board, Seat};
use pf_num::OutOfMemory;
use std::alloc::Global;
use std::test::Fail;
use std::thread;
use std::thread::Threads;

// A seat in a thread, and what it claimed there.
#[derive(Drop)]
struct Worker {
    seat: Seat,
    claims: Vec<u32>,
    refused: bool,
}

// Claims until none is left. Where memory runs out, the numbers are still claimed.
fn claim_all(board: &Board, worker: &mut Worker)
    requires { IsSeatOf board.now worker.old.seat }
    ensures of_board { IsSeatOf board.now worker.new.seat }
    ensures told { was_told worker.new.seat ≡ true }
{
    while let Some(number) = board.claim(&mut worker.seat) {
        if worker.claims.push(number).is_err() {
            worker.refused = true;
        }
    }
}

fn claim_in_threads(rt: &(impl Threads + Sync), board: &Board, workers: &mut [Worker])
    requires { All (λ w. IsSeatOf board.now w.seat) workers.old }
    ensures of_board { All (λ w. IsSeatOf board.now w.seat) workers.new }
    ensures told { All (λ w. was_told w.seat ≡ true) workers.new }
{
    thread::for_each_mut(rt, workers, 2, &|_, worker| claim_all(board, worker));
}

// A worker for each seat.
fn workers_of(
    alloc: Global,
    board: &Board,
    mut seats: Vec<Seat>,
) -> Result<Vec<Worker>, OutOfMemory>
    requires { All (IsSeatOf board.now) seats.items }
    ensures all { IfOk result (λ workers. vec_len workers ≡ vec_len seats) }
    ensures of_board { IfOk result (λ workers. All (λ w. IsSeatOf board.now w.seat) workers.items) }
{
    let mut workers = Vec::with_capacity(alloc, seats.len())?;
    while let Some(seat) = seats.pop() {
        workers.push(Worker {
            seat,
            claims: Vec::new(alloc),
            refused: false,
        })?;
    }
    Ok(workers)
}

// Ends the board, and gives what each worker claimed.
fn close_all(
    alloc: Global,
    board: Board,
    mut workers: Vec<Worker>,
) -> Result<Vec<Vec<u32>>, OutOfMemory>
    requires all { vec_len workers ≡ seat_count board }
    requires of_board { All (λ w. IsSeatOf board w.seat) workers.items }
    requires told { All (λ w. was_told w.seat ≡ true) workers.items }
{
    let mut seats = Vec::with_capacity(alloc, workers.len())?;
    let mut lists = Vec::with_capacity(alloc, workers.len())?;
    while let Some(worker) = workers.pop() {
        if worker.refused {
            return Err(OutOfMemory);
        }
        let Worker { seat, claims, .. } = worker;
        seats.push(seat)?;
        lists.push(claims)?;
    }
    board.close(seats);
    Ok(lists)
}

// What a seat claims five times.
fn five_claims(board: &Board, seat: &mut Seat) -> [Option<u32>; 5]
    requires { IsSeatOf board.now seat.old }
{
    [
        board.claim(seat),
        board.claim(seat),
        board.claim(seat),
        board.claim(seat),
        board.claim(seat),
    ]
}

#[test]
fn numbers_come_in_order_and_then_none(rt: HostRuntime) -> Result<(), Fail> {
    let (board, mut seats) = Board::open(rt.alloc(), 3, 1)?;
    assert!(rt; five_claims(&board, &mut seats[0]) == [Some(0), Some(1), Some(2), None, None]);
    Ok(())
}

// Counts each number of a list at its place, if all have one.
fn count_each(times: &mut [u32; 1000], list: &[u32]) -> bool {
    for number in list {
        match times.get_mut(*number as usize) {
            Some(count) => *count = count.saturating_add(1),
            None => return false,
        }
    }
    true
}

// Whether the lists together have each number below 1000 once.
fn have_each_once(lists: &[Vec<u32>]) -> bool {
    let mut times = [0; 1000];
    for list in lists {
        if !count_each(&mut times, list) {
            return false;
        }
    }
    times == [1; 1000]
}

// What two seats claim in two threads, of a thousand numbers.
fn claimed_by_two(rt: &(impl Threads + Sync), alloc: Global) -> Result<Vec<Vec<u32>>, OutOfMemory> {
    let (board, seats) = Board::open(alloc, 1000, 2)?;
    let mut workers = workers_of(alloc, &board, seats)?;
    claim_in_threads(rt, &board, &mut workers);
    close_all(alloc, board, workers)
}

#[test]
fn two_threads_claim_each_number_once(rt: HostRuntime) -> Result<(), Fail> {
    assert!(rt; have_each_once(&claimed_by_two(&rt, rt.alloc())?));
    Ok(())
}
