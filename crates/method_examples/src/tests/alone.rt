ghost use Rattle.std.specs.Prelude.{◌≡◌, ◌<◌, ◌≤◌};
ghost use Rattle.pf_model.specs.Particles.{AreBodies};
ghost use Rattle.pf_model.specs.Division.{rank_count};

use super::bodies::{Row, TWO_CLOSE_AND_ONE_FAR, are_bodies, list, particles};
use super::entries::{Shown, are_shown};
use super::trees::goes_between_threads;
use group_lists::{Gather, HasLists, Lists, MOST_ENTRIES};
use model_laws::lone_ranks_have_all;
use morton_tree::{Group, Tree};
use pf_geom::Edge;
use pf_model::{Body, Build, Grid, MOST_GROUP, Steps, Terms, Theta, slow_list};
use pf_num::OutOfMemory;
use std::alloc::Global;
use std::marker::Brand;
use std::sync::ledger::{Blank, Ledger};
use std::test::Fail;
use std::thread::Threads;

// The groups of a rank alone, and their lists, whose own bodies are given anew as they stand.
#[derive(Drop)]
struct Alone {
    groups: Vec<Group>,
    lists: Lists,
}

// What the only rank has, in groups of at most `limit`, in the terms T.
fn alone_in<T: Terms + Send + Sync, L: Ledger>(
    rt: &(impl Threads + Sync),
    alloc: Global,
    build: Build<'_>,
    limit: u32,
    blank: Blank,
) -> Result<Alone, OutOfMemory>
    requires particles { T.particles ≡ build.bodies.now }
    requires theta { build.theta ≡ T.theta }
    requires one { rank_count T.grid ≡ 1 }
    requires some_limit { 1 ≤ limit }
    requires most_limit { limit ≤ MOST_GROUP }
    requires name { blank.name ≡ L.name }
    requires parts { blank.parts ≡ L.parts }
    requires some { 0 < L.parts }
{
    lone_ranks_have_all();
    let tree = Tree::build(rt, alloc, build.bodies.to_vec(alloc)?)?;
    let groups = tree.groups(alloc, limit)?;
    let mut steps = Steps::new(blank);
    let gather = Gather::<T>::open::<L>(alloc, 0, 1, &tree, &groups, build.theta, &mut steps)?;
    goes_between_threads(&gather);
    if gather.count() > MOST_ENTRIES {
        return Err(OutOfMemory);
    }
    let mut lists = gather.finish(alloc)?;
    lists.set_own(tree.bodies());
    Ok(Alone { groups, lists })
}

// The same, of values.
fn alone_of(
    rt: &(impl Threads + Sync),
    alloc: Global,
    bodies: &[Body],
    theta: Theta,
    limit: u32,
) -> Result<Alone, OutOfMemory>
    requires bodies { AreBodies bodies.now }
    requires some { 1 ≤ limit }
    requires most { limit ≤ MOST_GROUP }
{
    let one = Grid {
        nx: 1,
        ny: 1,
        nz: 1,
    };
    let build = Build::of(bodies, one, theta);
    alone_in::<Brand, Brand>(rt, alloc, build, limit, Blank::new(1))
}

// The list of a group, through the trait of what has lists.
fn has_entries<H: HasLists>(has: &H, group: u32, shown: &[Shown]) -> bool {
    let lists = has.lists();
    group < lists.groups() && are_shown(lists.entries(group), shown)
}

const FROM_THE_FAR_BODY: [Shown; 2] = [
    Shown::Cell(10, 4, 2, 4, [4194319, 0, 0]),
    Shown::One((1, [0, 0, 0], 1)),
];

const FROM_A_CLOSE_BODY: [Shown; 3] = [
    Shown::Cell(11, 0, 1, 1, [0, 0, 0]),
    Shown::Cell(28, (1 << 56) + 4, 1, 3, [3145743, 0, 0]),
    Shown::One((2, [1048576, 0, 0], 1)),
];

const FROM_THE_OTHER: [Shown; 3] = [
    Shown::Cell(11, 0, 1, 1, [0, 0, 0]),
    Shown::Cell(29, 1 << 59, 1, 1, [1048576, 0, 0]),
    Shown::One((3, [1048581, 0, 0], 3)),
];

const THE_OTHER: [Row; 1] = [(3, [1048581, 0, 0], 3)];

// Whether the lists of groups of one are those of the three particles.
fn are_of_three(lists: &Lists) -> bool {
    lists.groups() == 3
        && has_entries(lists, 0, &FROM_THE_FAR_BODY)
        && has_entries(lists, 1, &FROM_A_CLOSE_BODY)
        && has_entries(lists, 2, &FROM_THE_OTHER)
        && are_bodies(lists.group(2), &THE_OTHER)
}

#[test]
fn cells_far_enough_stand_for_their_bodies(rt: HostRuntime) -> Result<(), Fail> {
    let all = particles(rt.alloc(), &TWO_CLOSE_AND_ONE_FAR)?;
    let theta = Theta {
        a: 1,
        b: 1,
        edge: Edge::Open,
    };
    let alone = alone_of(&rt, rt.alloc(), list(&all), theta, 1)?;
    goes_between_threads(&alone.lists);
    assert!(rt; are_of_three(&alone.lists));
    Ok(())
}

// The next number of a linear congruence.
fn next(drawn: u32) -> u32 {
    drawn.wrapping_mul(1_664_525).wrapping_add(1_013_904_223)
}

// Particles spread over the cube, and more and more densely towards its corner.
fn scattered(alloc: Global) -> Result<Vec<Row>, OutOfMemory> {
    let mut rows = Vec::new(alloc);
    let mut drawn = 1;
    for i in 0..48_u32 {
        let nearer = 2 + i % 12;
        let x = next(drawn);
        let y = next(x);
        drawn = next(y);
        rows.push((i + 1, [x >> nearer, y >> nearer, drawn >> nearer], 1))?;
    }
    Ok(rows)
}

// Whether the walk finds each list as the definition does.
fn are_of_definition(
    alloc: Global,
    alone: &Alone,
    bodies: &[Body],
    theta: Theta,
) -> Result<bool, OutOfMemory>
    requires { AreBodies bodies.now }
{
    for n in 0..alone.lists.groups() {
        let Some(group) = alone.groups.get(n as usize) else {
            return Ok(false);
        };
        let slow = slow_list(alloc, bodies, group.around, theta)?;
        if alone.lists.entries(n) != slow.as_slice() {
            return Ok(false);
        }
    }
    Ok(true)
}

// Whether there are more than ten groups of four, whose lists at the angle 7/10 are those of the definition.
fn agree(rt: &(impl Threads + Sync), alloc: Global, edge: Edge) -> Result<bool, Fail> {
    let all = particles(alloc, &scattered(alloc)?)?;
    let theta = Theta { a: 7, b: 10, edge };
    let alone = alone_of(rt, alloc, list(&all), theta, 4)?;
    Ok(alone.lists.groups() > 10 && are_of_definition(alloc, &alone, list(&all), theta)?)
}

#[test]
fn the_walk_finds_the_lists_of_the_definition(rt: HostRuntime) -> Result<(), Fail> {
    assert!(rt; agree(&rt, rt.alloc(), Edge::Open)?);
    assert!(rt; agree(&rt, rt.alloc(), Edge::Periodic)?);
    Ok(())
}
