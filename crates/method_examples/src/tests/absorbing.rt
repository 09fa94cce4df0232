ghost use Rattle.std.specs.Prelude.{◌≡◌, ◌≢◌, ◌<◌, ◌∷◌, [], IfOk, length};
ghost use Rattle.pf_model.specs.Division.{rank_count};
ghost use Rattle.multisection.specs.Regions.{regions_of, AreTargets};

use super::bodies::{Row, TWO_CLOSE_AND_ONE_FAR, list, particles};
use super::entries::{Shown, are_shown};
use super::sent::{angle, octree, sent_to, slabs};
use super::trees::goes_between_threads;
use group_lists::{Gather, Lists, MOST_ENTRIES};
use multisection::{Domains, make_domains};
use pf_model::{Build, Entry, EssTree, Steps, Terms, Theta};
use pf_num::OutOfMemory;
use std::alloc::Global;
use std::marker::Brand;
use std::sync::ledger::{Blank, Ledger};
use std::test::Fail;
use std::thread::Threads;

// What a rank has once it has absorbed two others: how long its lists are, the list of its first group, and all.
#[derive(Drop)]
pub struct Absorbed {
    pub count: u64,
    pub first: Vec<Entry>,
    pub lists: Lists,
}

// The essential tree that one rank sends another, in the terms T.
fn received<T: Terms, L: Ledger>(
    rt: &(impl Threads + Sync),
    alloc: Global,
    build: &Build<'_>,
    d: &Domains,
    src: u32,
    dst: u32,
    steps: &mut Steps<L>,
) -> Result<EssTree<T>, OutOfMemory>
    requires particles { T.particles ≡ build.now.bodies.now }
    requires grid { T.grid ≡ build.now.grid }
    requires theta { T.theta ≡ build.now.theta }
    requires domains { d.now ≡ regions_of build.now.grid build.now.bodies.now }
    requires targets { AreTargets build.now.grid build.now.bodies.now d.now }
    ensures src { IfOk result (λ tree. tree.src ≡ src) }
    ensures dst { IfOk result (λ tree. tree.dst ≡ dst) }
{
    let (tree, _) = sent_to::<T, L>(rt, alloc, build, d, src, dst, steps)?;
    Ok(tree)
}

// The lists of a rank's groups of one, once it has absorbed one rank and then another, in the terms T.
fn gather_in<T: Terms + Send + Sync, L: Ledger>(
    rt: &(impl Threads + Sync),
    alloc: Global,
    build: &Build<'_>,
    rank: u32,
    one: u32,
    other: u32,
    blank: Blank,
) -> Result<Gather<T>, OutOfMemory>
    requires particles { T.particles ≡ build.now.bodies.now }
    requires grid { T.grid ≡ build.now.grid }
    requires theta { T.theta ≡ build.now.theta }
    requires three { rank_count build.now.grid ≡ 3 }
    requires ranks { (rank < 3) × (one < 3) × (other < 3) }
    requires apart { (one ≢ rank) × (other ≢ rank) × (one ≢ other) }
    requires name { blank.name ≡ L.name }
    requires parts { blank.parts ≡ L.parts }
    requires some { 0 < L.parts }
    ensures groups { IfOk result (λ gather. 0 < length gather.groups) }
    ensures rank { IfOk result (λ gather. gather.rank ≡ rank) }
    ensures absorbed { IfOk result (λ gather. gather.absorbed ≡ one ∷ other ∷ []) }
{
    let d = make_domains(alloc, build.bodies, build.grid)?;
    let tree = octree(rt, alloc, build, &d, rank)?;
    let groups = tree.groups(alloc, 1)?;
    if groups.is_empty() {
        return Err(OutOfMemory);
    }
    let mut steps = Steps::new(blank);
    let opened = Gather::<T>::open::<L>(alloc, rank, 3, &tree, &groups, build.theta, &mut steps)?;
    let from_one = received::<T, L>(rt, alloc, build, &d, one, rank, &mut steps)?;
    let halfway = opened.absorb(alloc, from_one, &mut steps)?;
    let from_other = received::<T, L>(rt, alloc, build, &d, other, rank, &mut steps)?;
    let whole = halfway.absorb(alloc, from_other, &mut steps)?;
    Ok(whole)
}

// What a rank of three has, once it has absorbed one of the others and then the other, in the terms T.
fn gathered_in<T: Terms + Send + Sync, L: Ledger>(
    rt: &(impl Threads + Sync),
    alloc: Global,
    build: &Build<'_>,
    rank: u32,
    one: u32,
    other: u32,
    blank: Blank,
) -> Result<Absorbed, OutOfMemory>
    requires particles { T.particles ≡ build.now.bodies.now }
    requires grid { T.grid ≡ build.now.grid }
    requires theta { T.theta ≡ build.now.theta }
    requires three { rank_count build.now.grid ≡ 3 }
    requires ranks { (rank < 3) × (one < 3) × (other < 3) }
    requires apart { (one ≢ rank) × (other ≢ rank) × (one ≢ other) }
    requires name { blank.name ≡ L.name }
    requires parts { blank.parts ≡ L.parts }
    requires some { 0 < L.parts }
{
    let gather = gather_in::<T, L>(rt, alloc, build, rank, one, other, blank)?;
    goes_between_threads(&gather);
    let count = gather.count();
    if count > MOST_ENTRIES {
        return Err(OutOfMemory);
    }
    let first = Vec::from_slice(alloc, gather.partial(0))?;
    let lists = gather.finish(alloc)?;
    Ok(Absorbed {
        count,
        first,
        lists,
    })
}

// The same, of values, where each of the three ranks owns a slab.
pub fn gathered(
    rt: &(impl Threads + Sync),
    alloc: Global,
    rows: &[Row],
    t: Theta,
    rank: u32,
    one: u32,
    other: u32,
) -> Result<Absorbed, Fail>
    requires ranks { (rank < 3) × (one < 3) × (other < 3) }
    requires apart { (one ≢ rank) × (other ≢ rank) × (one ≢ other) }
{
    let all = particles(alloc, rows)?;
    let build = Build::of(list(&all), slabs(3), t);
    Ok(gathered_in::<Brand, Brand>(rt, alloc, &build, rank, one, other, Blank::new(1))?)
}

const OF_TWO_RANKS: [Shown; 2] = [
    Shown::Cell(10, 4, 2, 4, [4194319, 0, 0]),
    Shown::One((1, [0, 0, 0], 1)),
];

// Whether the first rank's list, once it has absorbed the one and then the other, has the cell of both.
fn has_joined(rt: &(impl Threads + Sync), alloc: Global, one: u32, other: u32) -> Result<bool, Fail>
    requires ranks { (one < 3) × (other < 3) }
    requires apart { (one ≢ 0) × (other ≢ 0) × (one ≢ other) }
{
    let all = gathered(
        rt,
        alloc,
        &TWO_CLOSE_AND_ONE_FAR,
        angle(1, 1),
        0,
        one,
        other,
    )?;
    Ok(all.count == 2 && are_shown(&all.first, &OF_TWO_RANKS))
}

#[test]
fn a_cell_is_made_of_the_pieces_of_two_ranks_in_any_order(rt: HostRuntime) -> Result<(), Fail> {
    assert!(rt; has_joined(&rt, rt.alloc(), 1, 2)?);
    assert!(rt; has_joined(&rt, rt.alloc(), 2, 1)?);
    Ok(())
}

// Whether the only list of a rank has these entries.
pub fn is_list(lists: &Lists, shown: &[Shown]) -> bool {
    lists.groups() == 1 && are_shown(lists.entries(0), shown)
}

const IN_THE_MIDDLE: [Shown; 3] = [
    Shown::Cell(11, 0, 1, 1, [0, 0, 0]),
    Shown::Cell(28, (1 << 56) + 4, 1, 3, [3145743, 0, 0]),
    Shown::One((2, [1048576, 0, 0], 1)),
];

#[test]
fn pieces_stand_before_and_between_what_was_there(rt: HostRuntime) -> Result<(), Fail> {
    let middle = gathered(
        &rt,
        rt.alloc(),
        &TWO_CLOSE_AND_ONE_FAR,
        angle(1, 1),
        1,
        2,
        0,
    )?;
    assert!(rt; middle.count == 3 && is_list(&middle.lists, &IN_THE_MIDDLE));
    Ok(())
}
