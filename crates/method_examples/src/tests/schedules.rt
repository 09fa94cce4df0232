ghost use Rattle.std.specs.Prelude.{◌≤◌};

use super::bodies::{list, particles};
use super::setups::{SIX, six_groups, wide};
use particle_file::Particles;
use pf_geom::Box3;
use pf_model::{Entry, Grid, MOST_RANKS, slow_list};
use pf_num::OutOfMemory;
use std::alloc::{AllocError, Global};
use std::test::Fail;
use step_core::{Core, Event, MOST_WORKERS};

// The events that are legal in a core.
fn legal_events(
    alloc: Global,
    core: &Core,
    ranks: u32,
    workers: u32,
) -> Result<Vec<Event>, AllocError> {
    let mut events = Vec::new(alloc);
    for rank in 0..ranks {
        for src in 0..ranks {
            push_legal(core, Event::Put(src, rank), &mut events)?;
        }
        push_legal(core, Event::Take(rank), &mut events)?;
    }
    for worker in 0..workers {
        push_legal(core, Event::Claim(worker), &mut events)?;
        push_legal(core, Event::Finish(worker), &mut events)?;
    }
    Ok(events)
}

fn push_legal(core: &Core, event: Event, events: &mut Vec<Event>) -> Result<(), AllocError> {
    if core.legal(event) {
        events.push(event)?;
    }
    Ok(())
}

// Carries out legal events, picked by a linear congruence, until none is left. Answers how many there were.
fn drive(alloc: Global, core: &mut Core, ranks: u32, workers: u32, seed: u32) -> Result<u32, Fail> {
    let mut seed = seed;
    for count in 0..1000 {
        let events = legal_events(alloc, core, ranks, workers)?;
        if events.is_empty() {
            return Ok(count);
        }
        seed = seed.wrapping_mul(1_664_525).wrapping_add(1_013_904_223);
        let event = events[(seed >> 16) as usize % events.len()];
        if core.legal(event) {
            core.apply(alloc, event)?;
        }
    }
    Ok(1000)
}

// Whether legal events, driven to their end on the six particles, are so many, and then every group is finished once
// and each particle's list over all is a partial list.
fn ends_whole(
    alloc: Global,
    grid: Grid,
    ranks: u32,
    workers: u32,
    seed: u32,
    events: u32,
) -> Result<bool, Fail>
    requires some { 1 ≤ workers }
    requires most { workers ≤ MOST_WORKERS }
{
    let mut core = Core::open(alloc, six_groups(alloc, grid, workers)?)?;
    let count = drive(alloc, &mut core, ranks, workers, seed)?;
    let all = particles(alloc, &SIX)?;
    Ok(count == events && are_finished(alloc, &core)? && have_lists(alloc, &core, &all)?)
}

fn are_finished(alloc: Global, core: &Core) -> Result<bool, AllocError> {
    let mut finished = core.finished().to_vec(alloc)?;
    finished.sort_unstable();
    Ok(finished.as_slice() == [0, 1, 2, 3, 4, 5].as_slice())
}

fn have_lists(alloc: Global, core: &Core, all: &Particles) -> Result<bool, OutOfMemory> {
    for body in list(all) {
        let point = Box3 {
            lo: body.at,
            hi: body.at,
        };
        if !is_partial(core, &slow_list(alloc, list(all), point, wide())?) {
            return Ok(false);
        }
    }
    Ok(true)
}

// Whether this is the partial list of a finished group.
fn is_partial(core: &Core, list: &[Entry]) -> bool {
    for group in core.finished() {
        if core.partial(*group) == list {
            return true;
        }
    }
    false
}

fn slabs(nx: u32) -> Grid
    requires some { 1 ≤ nx }
    requires few { nx ≤ MOST_RANKS }
{
    Grid { nx, ny: 1, nz: 1 }
}

#[test]
fn one_rank_ends_whole(rt: HostRuntime) -> Result<(), Fail> {
    assert!(rt; ends_whole(rt.alloc(), slabs(1), 1, 3, 1, 12)?);
    Ok(())
}

#[test]
fn three_slabs_end_whole(rt: HostRuntime) -> Result<(), Fail> {
    assert!(rt; ends_whole(rt.alloc(), slabs(3), 3, 2, 7, 24)?);
    assert!(rt; ends_whole(rt.alloc(), slabs(3), 3, 1, 8, 24)?);
    Ok(())
}

#[test]
fn eight_ranks_end_whole(rt: HostRuntime) -> Result<(), Fail> {
    let grid = Grid {
        nx: 2,
        ny: 2,
        nz: 2,
    };
    assert!(rt; ends_whole(rt.alloc(), grid, 8, 4, 42, 124)?);
    Ok(())
}
