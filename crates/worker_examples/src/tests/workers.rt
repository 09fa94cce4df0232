ghost use Rattle.std.specs.Prelude.{◌≤◌};

use pf_io::{Gate, Meet, Open, Phase};
use pf_num::OutOfMemory;
use rank_workers::drive;
use std::alloc::Global;
use std::test::Fail;
use std::thread::Threads;

// Each of five ranks writes its number behind a digit of its own.
fn five_ranks<R: Threads + Sync, G: Gate>(
    rt: &R,
    alloc: Global,
    workers: u32,
    gate: &G,
) -> Result<Vec<u64>, OutOfMemory>
    requires { 1 ≤ workers }
{
    let ranks = Vec::from_array(alloc, [3, 1, 4, 1, 5])?;
    drive(
        rt,
        alloc,
        workers,
        gate,
        Phase::Leave,
        ranks,
        &|rank, x| *x = write_behind(*x, rank as u64),
    )
}

fn write_behind(x: u64, rank: u64) -> u64 {
    x.saturating_mul(10).saturating_add(rank)
}

const BEHIND: [u64; 5] = [30, 11, 42, 13, 54];

// Whether each rank writes once, whatever the number of workers.
fn write_once<R: Threads + Sync>(rt: &R, alloc: Global) -> Result<bool, OutOfMemory> {
    for workers in 1..8 {
        if five_ranks(rt, alloc, workers, &Open)?.as_slice() != BEHIND.as_slice() {
            return Ok(false);
        }
    }
    Ok(true)
}

#[test]
fn each_rank_is_driven_once(rt: HostRuntime) -> Result<(), Fail> {
    assert!(rt; write_once(&rt, rt.alloc())?);
    Ok(())
}

// Whether the ranks write once, and whether so many workers meet.
fn write_and_meet<R: Threads + Sync>(
    rt: &R,
    alloc: Global,
    workers: u32,
) -> Result<(bool, bool), OutOfMemory>
    requires { 1 ≤ workers }
{
    let gate = Meet::meet_in(Phase::Leave);
    let after = five_ranks(rt, alloc, workers, &gate)?;
    Ok((after.as_slice() == BEHIND.as_slice(), gate.met()))
}

#[test]
fn two_workers_meet(rt: HostRuntime) -> Result<(), Fail> {
    assert!(rt; write_and_meet(&rt, rt.alloc(), 2)? == (true, true));
    Ok(())
}

#[test]
fn one_worker_meets_nobody(rt: HostRuntime) -> Result<(), Fail> {
    assert!(rt; write_and_meet(&rt, rt.alloc(), 1)? == (true, false));
    Ok(())
}

// Whether three workers meet where there is no rank, and nothing comes of it.
fn meet_without_ranks<R: Threads + Sync>(rt: &R, alloc: Global) -> Result<bool, OutOfMemory> {
    let gate = Meet::meet_in(Phase::Settle);
    let none = Vec::<u64>::new(alloc);
    let after = drive(rt, alloc, 3, &gate, Phase::Settle, none, &|_, x| *x = 0)?;
    Ok(gate.met() && after.is_empty())
}

#[test]
fn workers_meet_where_there_is_no_rank(rt: HostRuntime) -> Result<(), Fail> {
    assert!(rt; meet_without_ranks(&rt, rt.alloc())?);
    Ok(())
}
