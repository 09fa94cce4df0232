ghost use Rattle.std.specs.Prelude.{◌≡◌, ◌+◌, ◌<◌, ◌≤◌, length};
ghost use Rattle.pf_model.specs.Particles.{AreBodies};
ghost use Rattle.pf_model.specs.Division.{rank_count};

use crate::fault::BenchFault;
use group_lists::{Gather, Lists, MOST_ENTRIES};
use model_laws::lone_ranks_have_all;
use morton_tree::Tree;
use pf_geom::Edge;
use pf_model::{Body, Build, Entry, Grid, Steps, Terms, Theta};
use std::alloc::Global;
use std::marker::Brand;
use std::sync::ledger::{Blank, Ledger};
use std::thread::Threads;

// The most particles of a group.
const GROUP_LIMIT: u32 = 64;

/// How many groups there are, and how many cells and particles their lists have together.
#[derive(Clone, Copy, Debug)]
pub struct Counts {
    pub groups: u32,
    pub cells: u64,
    pub particles: u64,
}

/// What is counted of the lists of all groups of these bodies, on one rank.
pub fn counts_of(
    rt: &(impl Threads + Sync),
    alloc: Global,
    bodies: &[Body],
) -> Result<Counts, BenchFault>
    requires { AreBodies bodies.now }
{
    let alone = Grid {
        nx: 1,
        ny: 1,
        nz: 1,
    };
    let theta = Theta {
        a: 7,
        b: 10,
        edge: Edge::Open,
    };
    let build = Build::of(bodies, alone, theta);
    let lists = lists_of::<Brand, Brand>(rt, alloc, build, Blank::new(1))?;
    Ok(counts_in(&lists))
}

// The lists of all groups of a build on one rank.
fn lists_of<T: Terms, L: Ledger>(
    rt: &(impl Threads + Sync),
    alloc: Global,
    build: Build<'_>,
    blank: Blank,
) -> Result<Lists, BenchFault>
    requires particles { T.particles ≡ build.bodies.now }
    requires theta { build.theta ≡ T.theta }
    requires one { rank_count T.grid ≡ 1 }
    requires name { blank.name ≡ L.name }
    requires parts { blank.parts ≡ L.parts }
    requires some { 0 < L.parts }
{
    lone_ranks_have_all();
    let tree = Tree::build(rt, alloc, build.bodies.to_vec(alloc)?)?;
    let groups = tree.groups(alloc, GROUP_LIMIT)?;
    let mut steps = Steps::new(blank);
    let gather = Gather::<T>::open::<L>(alloc, 0, 1, &tree, &groups, build.theta, &mut steps)?;
    if gather.count() > MOST_ENTRIES {
        return Err(BenchFault::Lists);
    }
    Ok(gather.finish(alloc)?)
}

fn counts_in(lists: &Lists) -> Counts {
    let mut counts = Counts {
        groups: lists.groups(),
        cells: 0,
        particles: 0,
    };
    for group in 0..counts.groups {
        let entries = lists.entries(group);
        let cells = cell_count(entries);
        counts.cells += cells as u64;
        counts.particles += (entries.len() - cells) as u64;
    }
    counts
}

fn cell_count(entries: &[Entry]) -> usize
    ensures { result ≤ length entries.now }
{
    entries
        .iter()
        .filter(|entry| matches!(**entry, Entry::Cell(..)))
        .count()
}
