ghost use Rattle.std.specs.Prelude.{◌≡◌, ◌<◌, ◌≤◌, IfOk, IsPermutation, filter, nat_eq};
ghost use Rattle.pf_model.specs.Domains.{owner_by, particles_of};
ghost use Rattle.morton_tree.specs.Tree.{IsUnmoved};
ghost use Rattle.multisection.specs.Regions.{regions_of, AreTargets};

use super::bodies::{Row, TURNED, TWO_CLOSE_AND_ONE_FAR, list, particles};
use super::entries::{Shown, are_cells, are_shown};
use super::trees::{are_spans, goes_between_threads};
use essential_tree::{Sent, TreeParcel, essential};
use let_inbox::Named;
use model_laws::some_have_distinct_ids;
use morton_tree::Tree;
use multisection::{Domains, make_domains, owner, target};
use pf_geom::Edge;
use pf_model::{Body, Build, Entry, EssTree, Grid, Steps, Terms, Theta};
use pf_num::OutOfMemory;
use std::alloc::Global;
use std::marker::Brand;
use std::sync::ledger::{Blank, Ledger};
use std::test::Fail;
use std::thread::Threads;

// What one rank sends another: the names of the parcel, the items of its tree, and what the sender keeps.
#[derive(Drop)]
struct Sending {
    names: (u32, u32),
    items: Vec<Entry>,
    sent: Sent,
}

// The bodies that a rank owns.
pub fn owned(
    alloc: Global,
    bodies: &[Body],
    d: &Domains,
    rank: u32,
) -> Result<Vec<Body>, OutOfMemory>
    ensures { IfOk result (λ own. own.items
        ≡ filter (λ j. nat_eq (owner_by d.now.cuts j.at) rank) bodies.now) }
{
    Ok(
        bodies
            .iter()
            .filter(|body| owner(d, body.at) == rank)
            .copied()
            .collect(alloc)?,
    )
}

// The tree of the bodies that a rank owns.
pub fn octree(
    rt: &(impl Threads + Sync),
    alloc: Global,
    build: &Build<'_>,
    d: &Domains,
    rank: u32,
) -> Result<Tree, OutOfMemory>
    requires { d.now ≡ regions_of build.now.grid build.now.bodies.now }
    ensures unmoved { IfOk result (λ tree. IsUnmoved tree) }
    ensures own { IfOk result (λ tree.
        IsPermutation tree.built (particles_of build.now.grid build.now.bodies.now rank)) }
{
    some_have_distinct_ids();
    let own = owned(alloc, build.bodies, d, rank)?;
    let tree = Tree::build(rt, alloc, own)?;
    Ok(tree)
}

// The essential tree that one rank sends another, in the terms T, and what the sender keeps.
pub fn sent_to<T: Terms, L: Ledger>(
    rt: &(impl Threads + Sync),
    alloc: Global,
    build: &Build<'_>,
    d: &Domains,
    src: u32,
    dst: u32,
    steps: &mut Steps<L>,
) -> Result<(EssTree<T>, Sent), OutOfMemory>
    requires particles { T.particles ≡ build.now.bodies.now }
    requires grid { T.grid ≡ build.now.grid }
    requires theta { T.theta ≡ build.now.theta }
    requires domains { d.now ≡ regions_of build.now.grid build.now.bodies.now }
    requires targets { AreTargets build.now.grid build.now.bodies.now d.now }
    ensures src { IfOk result (λ r. r.0.src ≡ src) }
    ensures dst { IfOk result (λ r. r.0.dst ≡ dst) }
{
    let tree = octree(rt, alloc, build, d, src)?;
    let to = target(d, dst);
    let (tree, sent) = essential::<T, L>(alloc, &tree, src, dst, to, build.theta, steps)?;
    Ok((tree, sent))
}

// What a rank of a build sends another, in the terms T.
fn sent_in<T: Terms + Send + Sync, L: Ledger>(
    rt: &(impl Threads + Sync),
    alloc: Global,
    build: &Build<'_>,
    src: u32,
    dst: u32,
    blank: Blank,
) -> Result<Sending, OutOfMemory>
    requires particles { T.particles ≡ build.now.bodies.now }
    requires grid { T.grid ≡ build.now.grid }
    requires theta { T.theta ≡ build.now.theta }
    requires name { blank.name ≡ L.name }
    requires parts { blank.parts ≡ L.parts }
    requires some { 0 < L.parts }
{
    let d = make_domains(alloc, build.bodies, build.grid)?;
    let mut steps = Steps::new(blank);
    let (tree, sent) = sent_to::<T, L>(rt, alloc, build, &d, src, dst, &mut steps)?;
    let parcel = TreeParcel { tree };
    goes_between_threads(&parcel);
    let names = (parcel.src(), parcel.dst());
    Ok(Sending {
        names,
        items: parcel.tree.items,
        sent,
    })
}

// So many slabs along x.
pub fn slabs(nx: u32) -> Grid
    requires some { 1 ≤ nx }
    requires few { nx ≤ 64 }
    ensures { result ≡ record { nx = nx; ny = 1; nz = 1 } }
{
    Grid { nx, ny: 1, nz: 1 }
}

pub fn angle(a: u32, b: u32) -> Theta
    requires a { a ≤ 1024 }
    requires some { 1 ≤ b }
    requires b { b ≤ 1024 }
{
    Theta {
        a,
        b,
        edge: Edge::Open,
    }
}

// What a rank sends another.
fn sent(
    rt: &(impl Threads + Sync),
    alloc: Global,
    rows: &[Row],
    grid: Grid,
    theta: Theta,
    src: u32,
    dst: u32,
) -> Result<Sending, Fail> {
    let all = particles(alloc, rows)?;
    let build = Build::of(list(&all), grid, theta);
    Ok(sent_in::<Brand, Brand>(rt, alloc, &build, src, dst, Blank::new(1))?)
}

// A sending: the bodies, how many slabs along x there are, the opening angle and the two ranks; and what is sent: the
// items, and the spans of their members.
struct Case<'a> {
    rows: &'a [Row],
    slabs: u32,
    angle: (u32, u32),
    ranks: (u32, u32),
    items: &'a [Shown],
    spans: &'a [(u32, u32)],
}

impl Case<'_> {
    fn grid(&self) -> Option<Grid> {
        if self.slabs == 0 || self.slabs > 64 {
            return None;
        }
        Some(slabs(self.slabs))
    }

    fn theta(&self) -> Option<Theta> {
        let (a, b) = self.angle;
        if a > 1024 || b == 0 || b > 1024 {
            return None;
        }
        Some(angle(a, b))
    }

    // Whether this is sent, from the one rank to the other; the sender keeps the cells of the items, and the spans.
    fn is(&self, sending: &Sending) -> bool {
        let sent = &sending.sent;
        sending.names == self.ranks
            && are_shown(&sending.items, self.items)
            && sent.dst == self.ranks.1
            && are_cells(&sent.cells, self.items)
            && are_spans(&sent.spans, self.spans)
    }
}

// Whether each case is what is sent.
fn are_sent(rt: &(impl Threads + Sync), alloc: Global, cases: &[Case<'_>]) -> Result<bool, Fail> {
    for case in cases {
        let grid = case.grid().ok_or("no grid")?;
        let theta = case.theta().ok_or("no angle")?;
        let (src, dst) = case.ranks;
        let sending = sent(rt, alloc, case.rows, grid, theta, src, dst)?;
        if !case.is(&sending) {
            return Ok(false);
        }
    }
    Ok(true)
}

const AS_LARGE_AS_THE_GAP: [Case<'static>; 2] = [
    Case {
        rows: &TWO_CLOSE_AND_ONE_FAR,
        slabs: 3,
        angle: (1, 1),
        ranks: (1, 0),
        items: &[Shown::Cell(30, 1 << 62, 1, 1, [1048576, 0, 0])],
        spans: &[(0, 1)],
    },
    Case {
        rows: &TWO_CLOSE_AND_ONE_FAR,
        slabs: 3,
        angle: (1, 1),
        ranks: (2, 0),
        items: &[Shown::Cell(28, (1 << 56) + 4, 1, 3, [3145743, 0, 0])],
        spans: &[(0, 1)],
    },
];

#[test]
fn cells_are_as_large_as_the_gap_to_the_receiver(rt: HostRuntime) -> Result<(), Fail> {
    assert!(rt; are_sent(&rt, rt.alloc(), &AS_LARGE_AS_THE_GAP)?);
    Ok(())
}

const OF_THE_CLOSE: [Shown; 2] = [
    Shown::Cell(28, (1 << 56) + 4, 1, 3, [3145743, 0, 0]),
    Shown::Cell(30, 1 << 62, 1, 1, [1048576, 0, 0]),
];

const IN_ANY_ORDER: [Case<'static>; 2] = [
    Case {
        rows: &TWO_CLOSE_AND_ONE_FAR,
        slabs: 2,
        angle: (1, 1),
        ranks: (1, 0),
        items: &OF_THE_CLOSE,
        spans: &[(1, 1), (0, 1)],
    },
    Case {
        rows: &TURNED,
        slabs: 2,
        angle: (1, 1),
        ranks: (1, 0),
        items: &OF_THE_CLOSE,
        spans: &[(1, 1), (0, 1)],
    },
];

#[test]
fn the_order_of_particles_changes_no_essential_tree(rt: HostRuntime) -> Result<(), Fail> {
    assert!(rt; are_sent(&rt, rt.alloc(), &IN_ANY_ORDER)?);
    Ok(())
}

const TWO: [Row; 2] = [(1, [0, 0, 0], 1), (2, [3, 4, 0], 1)];

const AS_THEMSELVES: [Case<'static>; 2] = [
    Case {
        rows: &TWO,
        slabs: 2,
        angle: (0, 1),
        ranks: (0, 1),
        items: &[Shown::One((1, [0, 0, 0], 1))],
        spans: &[(0, 1)],
    },
    Case {
        rows: &TWO,
        slabs: 2,
        angle: (0, 1),
        ranks: (1, 0),
        items: &[Shown::One((2, [3, 4, 0], 1))],
        spans: &[(0, 1)],
    },
];

#[test]
fn at_angle_0_bodies_are_sent_as_themselves(rt: HostRuntime) -> Result<(), Fail> {
    assert!(rt; are_sent(&rt, rt.alloc(), &AS_THEMSELVES)?);
    Ok(())
}

const NO_BODIES: [Case<'static>; 1] = [Case {
    rows: &[(1, [7, 0, 0], 1), (2, [7, 5, 0], 1)],
    slabs: 4,
    angle: (1, 1),
    ranks: (3, 0),
    items: &[],
    spans: &[],
}];

#[test]
fn a_rank_without_bodies_is_sent_nothing(rt: HostRuntime) -> Result<(), Fail> {
    assert!(rt; are_sent(&rt, rt.alloc(), &NO_BODIES)?);
    Ok(())
}

const SIX: [Row; 6] = [
    (1, [0, 0, 0], 1),
    (2, [0, 1, 0], 1),
    (3, [1, 0, 0], 1),
    (4, [2, 0, 0], 1),
    (5, [1048576, 0, 0], 1),
    (6, [1048577, 0, 0], 1),
];

const MEMBERS: [Case<'static>; 2] = [
    Case {
        rows: &SIX,
        slabs: 2,
        angle: (1, 2),
        ranks: (1, 0),
        items: &[
            Shown::Cell(12, 256, 2, 2, [2097153, 0, 0]),
            Shown::One((4, [2, 0, 0], 1)),
        ],
        spans: &[(1, 2), (0, 1)],
    },
    Case {
        rows: &SIX,
        slabs: 2,
        angle: (1, 2),
        ranks: (0, 1),
        items: &[
            Shown::Cell(30, 0, 1, 1, [0, 0, 0]),
            Shown::Cell(30, 2, 1, 1, [0, 1, 0]),
            Shown::One((3, [1, 0, 0], 1)),
        ],
        spans: &[(0, 1), (1, 1), (2, 1)],
    },
];

#[test]
fn the_members_of_items_stand_in_their_spans(rt: HostRuntime) -> Result<(), Fail> {
    assert!(rt; are_sent(&rt, rt.alloc(), &MEMBERS)?);
    Ok(())
}

const ONE_PLACE: [Case<'static>; 1] = [Case {
    rows: &[(1, [0, 0, 0], 1), (2, [9, 0, 0], 1), (3, [9, 0, 0], 1)],
    slabs: 2,
    angle: (1, 1),
    ranks: (1, 0),
    items: &[Shown::Cell(30, (1 << 11) + 4, 2, 2, [18, 0, 0])],
    spans: &[(0, 2)],
}];

#[test]
fn bodies_at_one_place_are_one_cell(rt: HostRuntime) -> Result<(), Fail> {
    assert!(rt; are_sent(&rt, rt.alloc(), &ONE_PLACE)?);
    Ok(())
}
