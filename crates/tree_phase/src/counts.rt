ghost use Rattle.std.specs.Prelude.{◌≡◌};
ghost use Rattle.run_model.specs.Text.{is_cell_entry, cells_in, particles_within};
ghost use Rattle.tree_phase.specs.Counts.{counts_of};

use group_lists::Lists;
use pf_model::Entry;
use run_model::RankLine;

// What the text of a step tells of a rank that has so many particles, and received so many cells and particles.
pub(crate) fn counts_of(particles: u32, cells: u32, parts: u32, lists: &Lists) -> RankLine
    ensures { result ≡ counts_of particles cells parts lists.now.groups }
{
    let groups = lists.groups();
    let mut listcells = 0;
    let mut listparts = 0;
    for group in 0..groups {
        let entries = lists.entries(group);
        listcells += cells_in(entries) as u64;
        listparts += particles_within(entries) as u64;
    }
    RankLine {
        particles,
        groups,
        cells,
        parts,
        listcells,
        listparts,
    }
}

pub(crate) fn cells_in(entries: &[Entry]) -> usize
    ensures { result ≡ cells_in entries.now }
{
    entries.iter().filter(|entry| is_cell(entry)).count()
}

pub(crate) fn particles_within(entries: &[Entry]) -> usize
    ensures { result ≡ particles_within entries.now }
{
    entries.iter().filter(|entry| !is_cell(entry)).count()
}

fn is_cell(entry: &Entry) -> bool
    ensures { result ≡ is_cell_entry entry.now }
{
    match entry {
        Entry::Cell(..) => true,
        Entry::One(_) => false,
    }
}
