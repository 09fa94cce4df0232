ghost use Rattle.std.specs.Prelude.{◌≤◌};

use super::bodies::{Row, TWO_CLOSE_AND_ONE_FAR, list, particles};
use super::entries::{Shown, are_shown};
use pf_geom::{Box3, Edge, point_at};
use pf_model::{MOST_GROUP, Theta, slow_group, slow_list};
use std::alloc::Global;
use std::test::Fail;

// The box from one place on the x axis to another.
fn along_x(from: u32, to: u32) -> Option<Box3> {
    if from > to {
        return None;
    }
    let lo = point_at(from, 0, 0)?;
    let hi = point_at(to, 0, 0)?;
    Some(Box3 { lo, hi })
}

// Whether the list of the box from one place on the x axis to another, at the angle 1/1, is the one shown.
fn has_list(
    alloc: Global,
    rows: &[Row],
    edge: Edge,
    from: u32,
    to: u32,
    shown: &[Shown],
) -> Result<bool, Fail> {
    let all = particles(alloc, rows)?;
    let around = along_x(from, to).ok_or("no box")?;
    let entries = slow_list(alloc, list(&all), around, Theta { a: 1, b: 1, edge })?;
    Ok(are_shown(&entries, shown))
}

// Whether the particles' list of an open cube is the one shown.
fn lists(alloc: Global, from: u32, to: u32, shown: &[Shown]) -> Result<bool, Fail> {
    has_list(alloc, &TWO_CLOSE_AND_ONE_FAR, Edge::Open, from, to, shown)
}

const FROM_THE_FAR_BODY: [Shown; 2] = [
    Shown::Cell(10, 4, 2, 4, [4194319, 0, 0]),
    Shown::One((1, [0, 0, 0], 1)),
];

#[test]
fn two_close_bodies_are_one_cell_of_a_far_list(rt: HostRuntime) -> Result<(), Fail> {
    assert!(rt; lists(rt.alloc(), 0, 0, &FROM_THE_FAR_BODY)?);
    Ok(())
}

const FROM_A_CLOSE_BODY: [Shown; 3] = [
    Shown::Cell(11, 0, 1, 1, [0, 0, 0]),
    Shown::Cell(28, (1 << 56) + 4, 1, 3, [3145743, 0, 0]),
    Shown::One((2, [1048576, 0, 0], 1)),
];

#[test]
fn each_body_of_a_near_list_has_an_entry_of_its_own(rt: HostRuntime) -> Result<(), Fail> {
    assert!(rt; lists(rt.alloc(), 1048576, 1048576, &FROM_A_CLOSE_BODY)?);
    Ok(())
}

const FROM_THE_OTHER: [Shown; 3] = [
    Shown::Cell(11, 0, 1, 1, [0, 0, 0]),
    Shown::Cell(29, 1 << 59, 1, 1, [1048576, 0, 0]),
    Shown::One((3, [1048581, 0, 0], 3)),
];

#[test]
fn a_list_from_the_other_side_has_a_finer_cell(rt: HostRuntime) -> Result<(), Fail> {
    assert!(rt; lists(rt.alloc(), 1048581, 1048581, &FROM_THE_OTHER)?);
    Ok(())
}

const FROM_BOTH: [Shown; 3] = [
    Shown::Cell(11, 0, 1, 1, [0, 0, 0]),
    Shown::One((2, [1048576, 0, 0], 1)),
    Shown::One((3, [1048581, 0, 0], 3)),
];

#[test]
fn particles_in_the_box_are_listed_as_themselves(rt: HostRuntime) -> Result<(), Fail> {
    assert!(rt; lists(rt.alloc(), 1048576, 1048581, &FROM_BOTH)?);
    Ok(())
}

const LAST_ALONG_X: [Row; 1] = [(1, [1073741823, 0, 0], 1)];

const ACROSS_THE_EDGE: [Shown; 1] = [Shown::Cell(
    30,
    707394308163074442799499556,
    1,
    1,
    [1073741823, 0, 0],
)];

#[test]
fn a_periodic_list_sees_the_nearest_image(rt: HostRuntime) -> Result<(), Fail> {
    assert!(rt;
        has_list(
            rt.alloc(),
            &LAST_ALONG_X,
            Edge::Periodic,
            0,
            0,
            &ACROSS_THE_EDGE
        )?
    );
    Ok(())
}

// Whether the group of the body at a place, in groups of at most `limit`, has these ids.
fn has_group(
    alloc: Global,
    rows: &[Row],
    limit: u32,
    place: usize,
    ids: &[u32],
) -> Result<bool, Fail>
    requires some { 1 ≤ limit }
    requires most { limit ≤ MOST_GROUP }
{
    let all = particles(alloc, rows)?;
    let own = list(&all);
    let Some(body) = own.get(place) else {
        return Ok(false);
    };
    let group = slow_group(alloc, own, limit, body.id)?;
    Ok(group.as_slice() == ids)
}

// Whether the groups of the three particles, each from its own, have these ids.
fn have_groups(
    alloc: Global,
    limit: u32,
    first: &[u32],
    second: &[u32],
    third: &[u32],
) -> Result<bool, Fail>
    requires some { 1 ≤ limit }
    requires most { limit ≤ MOST_GROUP }
{
    let rows = &TWO_CLOSE_AND_ONE_FAR;
    Ok(
        has_group(alloc, rows, limit, 0, first)?
            && has_group(alloc, rows, limit, 1, second)?
            && has_group(alloc, rows, limit, 2, third)?,
    )
}

const ALONE: [Row; 1] = [(2, [1048576, 0, 0], 1)];

#[test]
fn the_only_body_of_a_rank_is_its_group(rt: HostRuntime) -> Result<(), Fail> {
    assert!(rt; has_group(rt.alloc(), &ALONE, 64, 0, &[2])?);
    Ok(())
}

#[test]
fn a_limit_of_one_leaves_each_body_alone(rt: HostRuntime) -> Result<(), Fail> {
    assert!(rt; have_groups(rt.alloc(), 1, &[1], &[2], &[3])?);
    Ok(())
}

#[test]
fn each_particle_is_in_the_one_group_of_its_members(rt: HostRuntime) -> Result<(), Fail> {
    assert!(rt; have_groups(rt.alloc(), 2, &[1], &[2, 3], &[2, 3])?);
    Ok(())
}

#[test]
fn a_group_is_the_largest_cell_within_the_limit(rt: HostRuntime) -> Result<(), Fail> {
    assert!(rt; have_groups(rt.alloc(), 3, &[1, 2, 3], &[1, 2, 3], &[1, 2, 3])?);
    Ok(())
}
