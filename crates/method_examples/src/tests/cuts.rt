ghost use Rattle.pf_model.specs.Division.{IsGrid};

use super::bodies::{Row, TWO_CLOSE_AND_ONE_FAR, list, particles};
use multisection::{Domains, make_domains, owner, ranks, target};
use pf_geom::point_at;
use pf_model::Grid;
use std::alloc::Global;
use std::test::Fail;

// The highest coordinate of the cube.
const LAST: u32 = 1_073_741_823;

// Where the box of a rank goes along x: from the one place to the other, or nowhere.
type Ends = Option<(u32, u32)>;

fn ends(d: &Domains, rank: u32) -> Ends {
    let b = target(d, rank)?;
    Some((b.lo.x, b.hi.x))
}

// Whether the boxes of the ranks, from the first on, have these ends. A rank past the last has none.
fn have_ends(d: &Domains, wanted: &[Ends]) -> bool {
    if wanted.len() > 64 {
        return false;
    }
    for i in 0..wanted.len() {
        if ends(d, i as u32) != wanted[i] {
            return false;
        }
    }
    true
}

// A place, and the rank that owns it.
type Owned = ([u32; 3], u32);

fn have_owners(d: &Domains, wanted: &[Owned]) -> bool {
    for i in 0..wanted.len() {
        let ([x, y, z], rank) = wanted[i];
        match point_at(x, y, z) {
            Some(p) if owner(d, p) == rank => {}
            _ => return false,
        }
    }
    true
}

// Whether the domains that bodies make on a grid have so many ranks, these owners and these ends.
fn divide(
    alloc: Global,
    rows: &[Row],
    grid: Grid,
    count: u32,
    owners: &[Owned],
    boxes: &[Ends],
) -> Result<bool, Fail> {
    let all = particles(alloc, rows)?;
    let d = make_domains(alloc, list(&all), grid)?;
    Ok(ranks(&d) == count && have_owners(&d, owners) && have_ends(&d, boxes))
}

fn grid(nx: u32, ny: u32, nz: u32) -> Grid
    requires { IsGrid nx ny nz }
{
    Grid { nx, ny, nz }
}

const TWO: [Row; 2] = [(1, [0, 0, 0], 1), (2, [3, 4, 0], 1)];

const OF_TWO: [Owned; 2] = [([2, 9, 9], 0), ([3, 0, 0], 1)];

const BOXES_OF_TWO: [Ends; 3] = [Some((0, 2)), Some((3, LAST)), None];

#[test]
fn one_cut_is_the_coordinate_in_the_middle(rt: HostRuntime) -> Result<(), Fail> {
    assert!(rt; divide(rt.alloc(), &TWO, grid(2, 1, 1), 2, &OF_TWO, &BOXES_OF_TWO)?);
    Ok(())
}

const TIED: [Row; 2] = [(1, [7, 0, 0], 1), (2, [7, 5, 0], 1)];

const OF_TIED: [Owned; 2] = [([6, 0, 0], 0), ([7, 0, 0], 3)];

const BOXES_OF_TIED: [Ends; 4] = [None, None, None, Some((7, LAST))];

#[test]
fn a_tie_goes_to_the_later_slab_and_slabs_may_be_empty(rt: HostRuntime) -> Result<(), Fail> {
    assert!(rt;
        divide(
            rt.alloc(),
            &TIED,
            grid(4, 1, 1),
            4,
            &OF_TIED,
            &BOXES_OF_TIED
        )?
    );
    Ok(())
}

const BOXES_OF_THREE: [Ends; 3] = [
    Some((0, 1_048_575)),
    Some((1_048_576, 1_048_580)),
    Some((1_048_581, LAST)),
];

#[test]
fn bodies_on_each_side_of_two_cuts(rt: HostRuntime) -> Result<(), Fail> {
    let rows = &TWO_CLOSE_AND_ONE_FAR;
    assert!(rt; divide(rt.alloc(), rows, grid(3, 1, 1), 3, &[], &BOXES_OF_THREE)?);
    Ok(())
}

const IN_SLABS: [Row; 4] = [
    (1, [0, 0, 0], 1),
    (2, [5, 200, 0], 1),
    (3, [0, 10, 0], 1),
    (4, [5, 100, 0], 1),
];

const OF_SLABS: [Owned; 5] = [
    ([0, 9, 0], 0),
    ([4, 10, 0], 1),
    ([4, 199, 0], 1),
    ([5, 199, 0], 2),
    ([9, 200, 0], 3),
];

#[test]
fn each_slab_is_cut_over_its_own_bodies(rt: HostRuntime) -> Result<(), Fail> {
    assert!(rt; divide(rt.alloc(), &IN_SLABS, grid(2, 2, 1), 4, &OF_SLABS, &[])?);
    Ok(())
}

const IN_COLUMNS: [Row; 4] = [
    (1, [0, 0, 0], 1),
    (2, [0, 0, 8], 1),
    (3, [0, 10, 3], 1),
    (4, [0, 10, 9], 1),
];

const OF_COLUMNS: [Owned; 4] = [
    ([0, 0, 7], 0),
    ([0, 9, 8], 1),
    ([0, 10, 8], 2),
    ([0, 10, 9], 3),
];

#[test]
fn ranks_are_numbered_with_z_fastest(rt: HostRuntime) -> Result<(), Fail> {
    assert!(rt; divide(rt.alloc(), &IN_COLUMNS, grid(1, 2, 2), 4, &OF_COLUMNS, &[])?);
    Ok(())
}

const OF_NONE: [Owned; 1] = [([LAST, LAST, LAST], 0)];

#[test]
fn without_bodies_all_belongs_to_the_first_rank(rt: HostRuntime) -> Result<(), Fail> {
    assert!(rt; divide(rt.alloc(), &[], grid(2, 2, 2), 8, &OF_NONE, &[None; 8])?);
    Ok(())
}
