ghost use Rattle.std.specs.Prelude.{◌≤◌};

use super::entries::{Shown, are_shown};
use super::setups::two_ranks;
use std::alloc::Global;
use std::test::Fail;
use step_core::{Core, Event, MOST_WORKERS};

const WHOLE: [Event; 8] = [
    Event::Put(0, 1),
    Event::Put(1, 0),
    Event::Take(1),
    Event::Take(0),
    Event::Claim(0),
    Event::Finish(0),
    Event::Claim(0),
    Event::Finish(0),
];

const BOTH: [Shown; 2] = [Shown::One((1, [0, 0, 0], 1)), Shown::One((2, [3, 4, 0], 1))];

// Whether both groups are finished, in turn, and have both particles in their lists.
fn has_finished_both(core: &Core) -> bool {
    for group in core.finished() {
        if !are_shown(core.partial(*group), &BOTH) {
            return false;
        }
    }
    core.finished() == [0, 1].as_slice()
}

#[test]
fn a_legal_list_ends_with_both_groups_finished(rt: HostRuntime) -> Result<(), Fail> {
    let core = Core::run(rt.alloc(), two_ranks(rt.alloc(), 1)?, &WHOLE)?.ok_or("not legal")?;
    assert!(rt; has_finished_both(&core));
    Ok(())
}

// Whether these events, one after another, are legal on two ranks.
fn are_legal(alloc: Global, workers: u32, events: &[Event]) -> Result<bool, Fail>
    requires some { 1 ≤ workers }
    requires most { workers ≤ MOST_WORKERS }
{
    let setup = two_ranks(alloc, workers)?;
    Ok(Core::run(alloc, setup, events)?.is_some())
}

// A core of two ranks, of which the first has sent to the second.
fn after_one(alloc: Global) -> Result<Core, Fail> {
    let mut core = Core::open(alloc, two_ranks(alloc, 1)?)?;
    for event in [Event::Put(0, 1), Event::Take(1)] {
        if !core.legal(event) {
            return Err("not legal".into());
        }
        core.apply(alloc, event)?;
    }
    Ok(core)
}

#[test]
fn a_pair_is_put_once(rt: HostRuntime) -> Result<(), Fail> {
    let core = after_one(rt.alloc())?;
    assert!(rt; !core.legal(Event::Put(0, 1)) && core.legal(Event::Put(1, 0)));
    Ok(())
}

#[test]
fn no_group_is_claimed_before_its_arrivals(rt: HostRuntime) -> Result<(), Fail> {
    assert!(rt; !are_legal(rt.alloc(), 1, &[Event::Claim(0)])?);
    Ok(())
}

// Whether the events are legal on two workers up to the last of them, and no further.
fn waits(alloc: Global, before: &[Event], all: &[Event]) -> Result<bool, Fail> {
    Ok(are_legal(alloc, 2, before)? && !are_legal(alloc, 2, all)?)
}

const FIRST_CLAIM: [Event; 3] = [Event::Put(0, 1), Event::Take(1), Event::Claim(0)];

#[test]
fn the_first_group_waits_for_its_own_rank(rt: HostRuntime) -> Result<(), Fail> {
    assert!(rt; waits(rt.alloc(), &FIRST_CLAIM[..2], &FIRST_CLAIM)?);
    Ok(())
}

const NEXT_CLAIM: [Event; 4] = [
    Event::Put(1, 0),
    Event::Take(0),
    Event::Claim(0),
    Event::Claim(1),
];

#[test]
fn the_next_group_waits_for_its_rank(rt: HostRuntime) -> Result<(), Fail> {
    assert!(rt; waits(rt.alloc(), &NEXT_CLAIM[..3], &NEXT_CLAIM)?);
    Ok(())
}
