ghost use Rattle.std.specs.Prelude.{◌<◌, ◌≤◌, IfOk};
ghost use Rattle.morton_tree.specs.Tree.{IsUnmoved};

use super::bodies::{Row, TURNED, are_bodies, halfway, list, particles};
use super::entries::has_sums;
use moments::centre;
use morton_tree::{Group, Span, Tree};
use pf_geom::{Cell, DEEPEST, Point};
use pf_model::MOST_GROUP;
use pf_num::OutOfMemory;
use std::alloc::Global;
use std::test::Fail;
use std::thread::Threads;

pub fn is_on_axis(p: Point, x: u32) -> bool {
    p.x == x && p.y == 0 && p.z == 0
}

pub fn goes_between_threads<T: Send + Sync>(_value: &T) {}

fn tree_of(rt: &(impl Threads + Sync), alloc: Global, rows: &[Row]) -> Result<Tree, Fail>
    ensures { IfOk result (λ tree. IsUnmoved tree) }
{
    let all = particles(alloc, rows)?;
    let own = Vec::from_slice(alloc, list(&all))?;
    Ok(Tree::build(rt, alloc, own)?)
}

const OUT_OF_ORDER: [Row; 3] = [(9, [5, 0, 0], 1), (4, [5, 0, 0], 1), (7, [2, 0, 0], 1)];

const IN_ORDER: [Row; 3] = [(7, [2, 0, 0], 1), (4, [5, 0, 0], 1), (9, [5, 0, 0], 1)];

#[test]
fn bodies_stand_in_order_of_key_and_then_id(rt: HostRuntime) -> Result<(), Fail> {
    let tree = tree_of(&rt, rt.alloc(), &OUT_OF_ORDER)?;
    assert!(rt; are_bodies(tree.bodies(), &IN_ORDER));
    goes_between_threads(&tree);
    Ok(())
}

const KEYS: [u128; 3] = [0, 1 << 62, (1 << 62) + 260];

#[test]
fn a_tree_keeps_the_keys_of_its_bodies(rt: HostRuntime) -> Result<(), Fail> {
    let tree = tree_of(&rt, rt.alloc(), &TURNED)?;
    assert!(rt; tree.keys() == KEYS.as_slice());
    Ok(())
}

// Whether spans begin at these places and have so many.
pub fn are_spans(spans: &[Span], wanted: &[(u32, u32)]) -> bool {
    if spans.len() != wanted.len() {
        return false;
    }
    for i in 0..wanted.len() {
        let (first, len) = wanted[i];
        if spans[i] != (Span { first, len }) {
            return false;
        }
    }
    true
}

// The cell of the two that are close together.
const PAIR: Cell = Cell { level: 10, key: 4 };

// Whether that cell has the last two bodies of the tree, with this sum along x and this centre.
fn has_pair(tree: &Tree, weighted: u128, x: u32) -> bool {
    let pair = tree.node(PAIR);
    let moment = tree.moment(pair);
    pair == (Span { first: 1, len: 2 })
        && moment.count > 0
        && has_sums(&moment, 2, 4, [weighted, 0, 0])
        && is_on_axis(centre(&moment), x)
}

#[test]
fn a_cell_has_the_moment_of_its_bodies(rt: HostRuntime) -> Result<(), Fail> {
    let tree = tree_of(&rt, rt.alloc(), &TURNED)?;
    assert!(rt; has_pair(&tree, 4194319, 1048579));
    Ok(())
}

// The three bodies, once each has gone half the way to the origin.
const HALFWAY: [Row; 3] = [
    (1, [0, 0, 0], 1),
    (2, [524288, 0, 0], 1),
    (3, [524290, 0, 0], 3),
];

// Moves the bodies of a tree half the way to the origin.
fn go_halfway(alloc: Global, tree: &mut Tree) -> Result<(), OutOfMemory> {
    let now = halfway(alloc, tree.bodies())?;
    tree.moved(&now);
    Ok(())
}

#[test]
fn bodies_that_moved_keep_the_spans_of_the_build(rt: HostRuntime) -> Result<(), Fail> {
    let mut tree = tree_of(&rt, rt.alloc(), &TURNED)?;
    go_halfway(rt.alloc(), &mut tree)?;
    assert!(rt; are_bodies(tree.bodies(), &HALFWAY));
    assert!(rt; tree.keys() == KEYS.as_slice());
    assert!(rt; has_pair(&tree, 2097158, 524289));
    Ok(())
}

// Whether the children of a cell, found with its span and without, have these spans in a tree of the three bodies.
fn has_children(
    rt: &(impl Threads + Sync),
    alloc: Global,
    cell: Cell,
    wanted: &[(u32, u32)],
) -> Result<bool, Fail>
    requires { cell.level < DEEPEST }
{
    let tree = tree_of(rt, alloc, &TURNED)?;
    Ok(
        are_spans(&tree.children(cell), wanted)
            && are_spans(&tree.children_in(cell, tree.node(cell)), wanted),
    )
}

const OF_ALL: [(u32, u32); 8] = [
    (0, 1),
    (1, 0),
    (1, 0),
    (1, 0),
    (1, 2),
    (3, 0),
    (3, 0),
    (3, 0),
];

#[test]
fn the_spans_of_children_follow_one_another(rt: HostRuntime) -> Result<(), Fail> {
    let cell = Cell { level: 9, key: 0 };
    assert!(rt; has_children(&rt, rt.alloc(), cell, &OF_ALL)?);
    Ok(())
}

const OF_THE_CLOSE: [(u32, u32); 8] = [
    (1, 1),
    (2, 0),
    (2, 0),
    (2, 0),
    (2, 1),
    (3, 0),
    (3, 0),
    (3, 0),
];

#[test]
fn the_children_of_a_cell_are_found_within_its_span(rt: HostRuntime) -> Result<(), Fail> {
    let near = Cell {
        level: 27,
        key: 1 << 53,
    };
    assert!(rt; has_children(&rt, rt.alloc(), near, &OF_THE_CLOSE)?);
    Ok(())
}

#[test]
fn the_children_of_an_empty_cell_stand_where_it_does(rt: HostRuntime) -> Result<(), Fail> {
    let cell = Cell { level: 10, key: 1 };
    assert!(rt; has_children(&rt, rt.alloc(), cell, &[(1, 0); 8])?);
    Ok(())
}

// What a group has to be: the level and the key of its cell, its span, and its box along x.
type Shown = (u32, u128, (u32, u32), (u32, u32));

fn is_group(group: &Group, shown: &Shown) -> bool {
    let (level, key, (first, len), (from, to)) = *shown;
    group.cell.level == level
        && group.cell.key == key
        && group.span == (Span { first, len })
        && is_on_axis(group.around.lo, from)
        && is_on_axis(group.around.hi, to)
}

// Whether the groups of these bodies, of at most `limit`, are those shown, in their order.
fn has_groups(
    rt: &(impl Threads + Sync),
    alloc: Global,
    rows: &[Row],
    limit: u32,
    shown: &[Shown],
) -> Result<bool, Fail>
    requires some { 1 ≤ limit }
    requires most { limit ≤ MOST_GROUP }
{
    let groups = tree_of(rt, alloc, rows)?.groups(alloc, limit)?;
    Ok(are_groups(&groups, shown))
}

fn are_groups(groups: &[Group], shown: &[Shown]) -> bool {
    if groups.len() != shown.len() {
        return false;
    }
    for i in 0..shown.len() {
        if !is_group(&groups[i], &shown[i]) {
            return false;
        }
    }
    true
}

const OF_ONE: [Shown; 3] = [
    (10, 0, (0, 1), (0, 0)),
    (28, 1 << 56, (1, 1), (1048576, 1048576)),
    (28, (1 << 56) + 4, (2, 1), (1048581, 1048581)),
];

#[test]
fn bodies_apart_are_groups_of_their_own(rt: HostRuntime) -> Result<(), Fail> {
    assert!(rt; has_groups(&rt, rt.alloc(), &TURNED, 1, &OF_ONE)?);
    Ok(())
}

const OF_TWO: [Shown; 2] = [(10, 0, (0, 1), (0, 0)), (10, 4, (1, 2), (1048576, 1048581))];

#[test]
fn bodies_together_are_one_group_within_the_limit(rt: HostRuntime) -> Result<(), Fail> {
    assert!(rt; has_groups(&rt, rt.alloc(), &TURNED, 2, &OF_TWO)?);
    Ok(())
}

const OF_THREE: [Shown; 1] = [(0, 0, (0, 3), (0, 1048581))];

#[test]
fn all_bodies_are_one_group_within_the_limit(rt: HostRuntime) -> Result<(), Fail> {
    assert!(rt; has_groups(&rt, rt.alloc(), &TURNED, 3, &OF_THREE)?);
    Ok(())
}

const AT_ONE_PLACE: [Row; 3] = [(2, [0, 0, 0], 1), (1, [0, 0, 0], 1), (3, [0, 0, 0], 1)];

const PAST_THE_LIMIT: [Shown; 1] = [(30, 0, (0, 3), (0, 0))];

#[test]
fn bodies_at_one_place_are_one_group_past_the_limit(rt: HostRuntime) -> Result<(), Fail> {
    assert!(rt; has_groups(&rt, rt.alloc(), &AT_ONE_PLACE, 1, &PAST_THE_LIMIT)?);
    Ok(())
}
