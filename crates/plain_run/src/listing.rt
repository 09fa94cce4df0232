ghost use Rattle.std.specs.Prelude.{◌≡◌, ◌*◌, ◌^◌, ◌<◌, All, IfOk, [], if◌then◌else◌, flat_map, length, nat_eq};
ghost use Rattle.std.specs.List.{range_with_len};
ghost use Rattle.pf_model.specs.Particles.{AreBodies};
ghost use Rattle.pf_model.specs.Division.{IsDivision, rank_count};
ghost use Rattle.pf_model.specs.EssentialTree.{essential_tree};
ghost use Rattle.pf_model.specs.Group.{particles_in, box_of};
ghost use Rattle.pf_model.specs.Groups.{groups_of_rank, group_with, group_list};
ghost use Rattle.pf_model.specs.Reuse.{as_in, kept_group_list};
ghost use Rattle.plain_run.specs.Lists.{HasMembers, HaveOneOrder};

use crate::domains::{particles_of, slow_owner};
use crate::essential::slow_essential;
use crate::kept::{found, kept_list};
use model_laws::lists_are_short;
use pf_geom::{Box3, Cell};
use pf_model::{
    Body, Entry, Grid, Theta, box_of, slow_group_cell, slow_group_cells, slow_list, slow_members,
};
use pf_num::OutOfMemory;
use std::alloc::Global;

/// The list of a particle's group, with the members of the build where they are now.
pub(crate) fn list_for(
    alloc: Global,
    grid: Grid,
    theta: Theta,
    limit: u32,
    built: &[Body],
    now: &[Body],
    i: &Body,
) -> Result<Vec<Entry>, OutOfMemory>
    requires built { AreBodies built.now }
    requires same { HaveOneOrder built.now now.now }
    ensures value { IfOk result (λ entries. entries.items ≡ kept_group_list theta built.now now.now
        (group_with limit grid built.now (as_in built.now i.now))) }
    ensures some { IfOk result (λ entries. All HasMembers entries.items) }
{
    let there = found(built, i);
    let rank = slow_owner(alloc, built, grid, there.at)?;
    let own = particles_of(alloc, built, grid, rank)?;
    let around = box_of_cell(alloc, &own, slow_group_cell(&own, limit, there.at))?;
    kept_list(alloc, theta, around, built, now)
}

/// The lists of the groups of a rank at a build, joined.
pub(crate) fn lists_of(
    alloc: Global,
    grid: Grid,
    theta: Theta,
    limit: u32,
    built: &[Body],
    rank: u32,
) -> Result<Vec<Entry>, OutOfMemory>
    requires { AreBodies built.now }
    ensures { IfOk result (λ entries.
        entries.items ≡ flat_map (group_list theta built.now) (groups_of_rank limit grid built.now rank)) }
{
    let own = particles_of(alloc, built, grid, rank)?;
    let cells = slow_group_cells(alloc, &own, limit)?;
    let mut entries = Vec::new(alloc);
    for cell in &cells {
        let around = box_of_cell(alloc, &own, *cell)?;
        let list = slow_list(alloc, built, around, theta)?;
        entries.extend_from_slice(&list)?;
    }
    Ok(entries)
}

/// What a rank receives at a build: the essential trees of all other ranks, joined.
pub(crate) fn received_by(
    alloc: Global,
    grid: Grid,
    theta: Theta,
    built: &[Body],
    rank: u32,
) -> Result<Vec<Entry>, OutOfMemory>
    requires { AreBodies built.now }
    ensures value { IfOk result (λ entries. entries.items ≡ flat_map
        (λ src. if nat_eq src rank then [] else essential_tree theta grid built.now src rank)
        (range_with_len 0 (rank_count grid))) }
    ensures few { IfOk result (λ entries. length entries.items < 2 ^ 32) }
{
    lists_are_short();
    let mut entries = Vec::new(alloc);
    for src in 0..rank_count(grid) {
        let tree = received_from(alloc, grid, theta, built, src, rank)?;
        entries.extend_from_slice(&tree)?;
    }
    Ok(entries)
}

// What a rank receives from another, and nothing from itself.
fn received_from(
    alloc: Global,
    grid: Grid,
    theta: Theta,
    built: &[Body],
    src: u32,
    rank: u32,
) -> Result<Vec<Entry>, OutOfMemory>
    requires { AreBodies built.now }
    ensures { IfOk result (λ tree.
        tree.items ≡ (if nat_eq src rank then [] else essential_tree theta grid built.now src rank)) }
{
    if src == rank {
        Ok(Vec::new(alloc))
    } else {
        slow_essential(alloc, built, grid, theta, src, rank)
    }
}

/// How many ranks the cube is divided among.
pub(crate) fn rank_count(grid: Grid) -> u32
    ensures value { result ≡ rank_count grid }
    ensures division { IsDivision grid }
{
    grid.nx * grid.ny * grid.nz
}

// The least box round the bodies in a cell, and of none the box of the origin alone.
fn box_of_cell(alloc: Global, own: &[Body], cell: Cell) -> Result<Box3, OutOfMemory>
    ensures { IfOk result (λ around. around ≡ box_of (particles_in cell own.now)) }
{
    Ok(box_of(&slow_members(alloc, own, cell)?))
}
