use super::absorbing::{gathered, is_list};
use super::bodies::{Row, body_of};
use super::entries::Shown;
use super::sent::angle;
use group_lists::Lists;
use morton_tree::Span;
use pf_model::{Body, Entry, Moment};
use std::test::Fail;

// Four bodies of which the first rank owns the first, the second the second, and the third the others: the third far
// away, and the fourth beside the second.
const NEAR_AND_FAR: [Row; 4] = [
    (1, [0, 0, 0], 1),
    (2, [1048576, 0, 0], 1),
    (3, [536870912, 0, 0], 1),
    (4, [1048581, 0, 0], 1),
];

// Where the members of an entry stand: among the own bodies, the items of one source and those of the other.
type Members = ((u32, u32), (u32, u32), (u32, u32));

const NONE: (u32, u32) = (0, 0);

// Whether a span has so many places, from this one on.
fn is_span(span: Span, wanted: (u32, u32)) -> bool {
    let (first, len) = wanted;
    span.len == len && (len == 0 || span.first == first)
}

// Whether, of the own bodies and of the items of two sources, those of these spans lie in the entry of the first list.
fn lie_in(lists: &Lists, place: u32, wanted: Members) -> bool {
    if lists.groups() == 0 || lists.sources() < 2 {
        return false;
    }
    if place as usize >= lists.entries(0).len() {
        return false;
    }
    let (own, one, other) = wanted;
    is_span(lists.own_in(0, place), own)
        && is_span(lists.items_in(0, 0, place), one)
        && is_span(lists.items_in(1, 0, place), other)
}

// Whether the entries of the first list have these members.
fn have_members(lists: &Lists, wanted: &[Members; 4]) -> bool {
    for i in 0..4 {
        if !lie_in(lists, i, wanted[i as usize]) {
            return false;
        }
    }
    true
}

// Whether there are two sources, of these ranks, and the lists sent the own bodies of this source at these places.
fn have_sources(lists: &Lists, one: u32, other: u32, source: usize, places: &[u32]) -> bool {
    if lists.sources() != 2 || source >= 2 {
        return false;
    }
    lists.source_rank(0) == one
        && lists.source_rank(1) == other
        && lists.sent_places(source) == places
}

const NEAR_ENTRIES: [Shown; 4] = [
    Shown::Cell(2, 32, 1, 1, [536870912, 0, 0]),
    Shown::Cell(11, 0, 1, 1, [0, 0, 0]),
    Shown::Cell(28, (1 << 56) + 4, 1, 1, [1048581, 0, 0]),
    Shown::One((2, [1048576, 0, 0], 1)),
];

// The first source is the third rank, and the other one the first.
const OF_NEAR_ENTRIES: [Members; 4] = [
    (NONE, (1, 1), NONE),
    (NONE, NONE, (0, 1)),
    (NONE, (0, 1), NONE),
    ((0, 1), NONE, NONE),
];

// Whether the second rank's list tells of its own body and of what the others sent.
fn tells_members(lists: &Lists) -> bool {
    is_list(lists, &NEAR_ENTRIES)
        && lists.groups() == 1
        && is_span(lists.group_span(0), (0, 1))
        && have_sources(lists, 2, 0, 0, &[1, 0])
        && have_members(lists, &OF_NEAR_ENTRIES)
}

#[test]
fn cells_tell_which_items_lie_in_them(rt: HostRuntime) -> Result<(), Fail> {
    let all = gathered(&rt, rt.alloc(), &NEAR_AND_FAR, angle(1, 1), 1, 2, 0)?;
    assert!(rt; tells_members(&all.lists));
    Ok(())
}

const PARTICLES: [Shown; 4] = [
    Shown::One((1, [0, 0, 0], 1)),
    Shown::One((2, [1048576, 0, 0], 1)),
    Shown::One((3, [536870912, 0, 0], 1)),
    Shown::One((4, [1048581, 0, 0], 1)),
];

const OF_PARTICLES: [Members; 4] = [
    (NONE, (0, 1), NONE),
    ((0, 1), NONE, NONE),
    (NONE, NONE, (1, 1)),
    (NONE, NONE, (0, 1)),
];

#[test]
fn particles_tell_where_they_were_sent(rt: HostRuntime) -> Result<(), Fail> {
    let lists = gathered(&rt, rt.alloc(), &NEAR_AND_FAR, angle(0, 1), 1, 0, 2)?.lists;
    assert!(rt; is_list(&lists, &PARTICLES) && have_sources(&lists, 0, 2, 1, &[1, 0]));
    assert!(rt; have_members(&lists, &OF_PARTICLES));
    Ok(())
}

// Gives a cell of the first list another moment, if there is one of as many members at that place.
fn set_cell(lists: &mut Lists, place: u32, moment: Moment) -> bool {
    if lists.groups() == 0 {
        return false;
    }
    match lists.entries(0).get(place as usize) {
        Some(Entry::Cell(_, old)) if old.count == moment.count => {}
        _ => return false,
    }
    lists.set_moment(0, place, moment);
    true
}

// Gives a particle of the first list another body, if it is the one of its id at that place.
fn set_particle(lists: &mut Lists, place: u32, body: Body) -> bool {
    if lists.groups() == 0 {
        return false;
    }
    match lists.entries(0).get(place as usize) {
        Some(Entry::One(old)) if old.id == body.id => {}
        _ => return false,
    }
    lists.set_body(0, place, body);
    true
}

// The present values of the bodies in the last two entries.
const MOVED: Row = (4, [1048600, 0, 0], 5);

const OWN: Row = (2, [1048570, 0, 0], 1);

const PRESENT_ENTRIES: [Shown; 4] = [
    Shown::Cell(2, 32, 1, 1, [536870912, 0, 0]),
    Shown::Cell(11, 0, 1, 1, [0, 0, 0]),
    Shown::Cell(28, (1 << 56) + 4, 1, 5, [5243000, 0, 0]),
    Shown::One(OWN),
];

// Whether the last two entries took those values.
fn takes_values(lists: &mut Lists) -> bool {
    let (Some(moved), Some(own)) = (body_of(&MOVED), body_of(&OWN)) else {
        return false;
    };
    set_cell(lists, 2, Moment::of_one(&moved)) && set_particle(lists, 3, own)
}

#[test]
fn entries_take_present_values(rt: HostRuntime) -> Result<(), Fail> {
    let mut lists = gathered(&rt, rt.alloc(), &NEAR_AND_FAR, angle(1, 1), 1, 2, 0)?.lists;
    assert!(rt; takes_values(&mut lists));
    assert!(rt; is_list(&lists, &PRESENT_ENTRIES) && have_members(&lists, &OF_NEAR_ENTRIES));
    Ok(())
}
