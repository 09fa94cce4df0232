ghost use Rattle.std.specs.Prelude.{◌≡◌, ◌++◌, IfOk, map};
ghost use Rattle.pf_model.specs.Group.{group_cells};
ghost use Rattle.step_core.specs.Plain.{plain_owned, site_in, sites_by};

use crate::cuts::Cuts;
use crate::site::Site;
use pf_model::{Body, box_of, slow_group_cells, slow_members};
use pf_num::OutOfMemory;
use std::alloc::Global;

// The groups of all ranks by number: by rank, then by the key of their cell's corner.
pub(crate) fn sites_by(
    alloc: Global,
    bodies: &[Body],
    cuts: &Cuts,
    ranks: u32,
    limit: u32,
) -> Result<Vec<Site>, OutOfMemory>
    ensures { IfOk result (λ sites. sites.items ≡ sites_by limit cuts.now bodies.now ranks) }
{
    let mut sites = Vec::new(alloc);
    for rank in 0..ranks {
        let own = owned_by(alloc, bodies, cuts, rank)?;
        add_sites(alloc, &mut sites, &own, rank, limit)?;
    }
    Ok(sites)
}

// The bodies that a rank owns.
fn owned_by(
    alloc: Global,
    bodies: &[Body],
    cuts: &Cuts,
    rank: u32,
) -> Result<Vec<Body>, OutOfMemory>
    ensures { IfOk result (λ own. own.items ≡ plain_owned cuts.now bodies.now rank) }
{
    Ok(
        bodies
            .iter()
            .filter(|body| cuts.owner(body.at) == rank)
            .copied()
            .collect(alloc)?,
    )
}

// Puts the groups of a rank behind those before.
fn add_sites(
    alloc: Global,
    sites: &mut Vec<Site>,
    own: &[Body],
    rank: u32,
    limit: u32,
) -> Result<(), OutOfMemory>
    ensures { IfOk result (λ _. sites.new.items
        ≡ sites.old.items ++ map (site_in own.now rank) (group_cells limit own.now)) }
{
    let cells = slow_group_cells(alloc, own, limit)?;
    for cell in &cells {
        let members = slow_members(alloc, own, *cell)?;
        sites.push(Site {
            rank,
            around: box_of(&members),
        })?;
    }
    Ok(())
}
