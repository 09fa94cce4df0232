ghost use Rattle.std.specs.Prelude.{◌≡◌, ◌≤◌, IfOk, length, map};
ghost use Rattle.pf_model.specs.Particles.{AreBodies};
ghost use Rattle.run_model.specs.Text as rules;
ghost use Rattle.plain_run.specs.Runs.{counts_by};

use crate::domains::particles_of;
use crate::listing::{lists_of, rank_count, received_by};
use crate::setup::RunSetup;
use model_laws::groups_are_few;
use pf_model::{Body, Entry, Grid, Theta, slow_group_cells};
use pf_num::OutOfMemory;
use run_model::RankLine;
use std::alloc::Global;

/// The counts of all ranks at a build.
pub(crate) fn rank_lines(
    alloc: Global,
    run: &RunSetup,
    built: &[Body],
) -> Result<Vec<RankLine>, OutOfMemory>
    requires { AreBodies built.now }
    ensures { IfOk result (λ lines. lines.items ≡ map (rules.rank_counts run.now built.now) (rules.ranks run.now)) }
{
    let mut lines = Vec::new(alloc);
    for rank in 0..rank_count(run.grid) {
        lines.push(rank_counts(alloc, run, built, rank)?)?;
    }
    Ok(lines)
}

fn rank_counts(
    alloc: Global,
    run: &RunSetup,
    built: &[Body],
    rank: u32,
) -> Result<RankLine, OutOfMemory>
    requires { AreBodies built.now }
    ensures { IfOk result (λ line. line ≡ rules.rank_counts run.now built.now rank) }
{
    counts_by(alloc, run.grid, run.theta, run.group, built, rank)
}

// The counts of a rank.
fn counts_by(
    alloc: Global,
    grid: Grid,
    theta: Theta,
    limit: u32,
    built: &[Body],
    rank: u32,
) -> Result<RankLine, OutOfMemory>
    requires { AreBodies built.now }
    ensures { IfOk result (λ line. line ≡ counts_by grid theta limit built.now rank) }
{
    groups_are_few();
    let own = particles_of(alloc, built, grid, rank)?;
    let cells = slow_group_cells(alloc, &own, limit)?;
    let received = received_by(alloc, grid, theta, built, rank)?;
    let lists = lists_of(alloc, grid, theta, limit, built, rank)?;
    Ok(RankLine {
        particles: own.len() as u32,
        groups: cells.len() as u32,
        cells: cells_in(&received) as u32,
        parts: particles_within(&received) as u32,
        listcells: cells_in(&lists) as u64,
        listparts: particles_within(&lists) as u64,
    })
}

fn cells_in(entries: &[Entry]) -> usize
    ensures value { result ≡ rules.cells_in entries.now }
    ensures few { result ≤ length entries.now }
{
    entries.iter().filter(|entry| is_cell(entry)).count()
}

fn particles_within(entries: &[Entry]) -> usize
    ensures value { result ≡ rules.particles_within entries.now }
    ensures few { result ≤ length entries.now }
{
    entries.iter().filter(|entry| !is_cell(entry)).count()
}

fn is_cell(entry: &Entry) -> bool
    ensures { result ≡ rules.is_cell_entry entry.now }
{
    match entry {
        Entry::Cell(..) => true,
        Entry::One(_) => false,
    }
}
