ghost use Rattle.std.specs.Prelude.{◌≡◌, ◌<◌, IfOk, IfSome, None, slice_index_or};
ghost use Rattle.pf_geom.specs.Position.{IsPosition};
ghost use Rattle.pf_model.specs.Particles.{AreBodies};
ghost use Rattle.pf_model.specs.Division.{rank_count};
ghost use Rattle.pf_model.specs.Domains.{owner_by};
ghost use Rattle.multisection.specs.Regions.{AreRegions, AreTargets, regions_of, boxes_by, HoldsWhatIsOwned};

use crate::cuts::Cuts;
use crate::cutting::cut;
use model_laws::{boxes_by_cuts_hold_what_is_owned, owners_are_ranks};
use pf_geom::{Box3, Point};
use pf_model::{Body, Grid};
use pf_num::OutOfMemory;
use std::alloc::Global;
use std::marker::Model;

/// The domains of ranks: where the cube is cut (multisection, as FDPS has it; Iwasawa et al. 2016), and the
/// domain box of each rank that owned a body when they were made.
#[derive(Drop)]
pub struct Domains {
    cuts: Cuts,
    boxes: Vec<Option<Box3>>,
}

impl Model for Domains {
    ghost use Rattle.multisection.specs.Regions.{Regions, AreRegions};

    ghost Value = { Regions };

    ghost view = { λ d. record { cuts = d.cuts; boxes = d.boxes.items } };

    ghost invariant = { λ d. AreRegions (record { cuts = d.cuts; boxes = d.boxes.items }) };
}

/// The domains that at most `MOST_PARTICLES` bodies of distinct ids make.
pub fn make_domains(alloc: Global, bodies: &[Body], grid: Grid) -> Result<Domains, OutOfMemory>
    requires { AreBodies bodies.now }
    ensures value { IfOk result (λ domains. domains ≡ regions_of grid bodies.now) }
    ensures targets { IfOk result (AreTargets grid bodies.now) }
{
    owners_are_ranks();
    let cuts = cut(alloc, bodies, grid)?;
    let boxes = boxes_of(alloc, &cuts, bodies)?;
    Ok(Domains { cuts, boxes })
}

// The domain box of each rank, by number, where it owns one of the bodies.
fn boxes_of(alloc: Global, cuts: &Cuts, bodies: &[Body]) -> Result<Vec<Option<Box3>>, OutOfMemory>
    ensures value { IfOk result (λ boxes. boxes.items ≡ boxes_by cuts.now bodies.now) }
    ensures regions { IfOk result (λ boxes. AreRegions (record { cuts = cuts.now; boxes = boxes.items })) }
{
    boxes_by_cuts_hold_what_is_owned();
    let mut boxes = Vec::from_elem(alloc, None, cuts.rank_count() as usize)?;
    for body in bodies {
        let rank = cuts.owner(place_of(body));
        boxes[rank as usize] = Some(cuts.domain_box(rank));
    }
    Ok(boxes)
}

// Where a body is, which lies in the cube.
fn place_of(body: &Body) -> Point
    ensures value { result ≡ body.now.at }
    ensures inside { IsPosition result }
{
    let _read = body.at.x;
    body.at
}

/// The rank that owns a position.
pub fn owner(d: &Domains, at: Point) -> u32
    ensures value { result ≡ owner_by d.now.cuts at }
    ensures rank { result < rank_count d.now.cuts.grid }
{
    d.cuts.owner(at)
}

/// The domain box of a rank, which holds exactly the positions that it owns. `None` exactly where it owned no
/// body when the domains were made.
pub fn target(d: &Domains, rank: u32) -> Option<Box3>
    ensures value { result ≡ slice_index_or d.now.boxes rank None }
    ensures holds { IfSome result (HoldsWhatIsOwned d.now.cuts rank) }
{
    let place = rank as usize;
    if place < d.boxes.len() {
        d.boxes[place]
    } else {
        None
    }
}

/// The number of ranks.
pub fn ranks(d: &Domains) -> u32
    ensures { result ≡ rank_count d.now.cuts.grid }
{
    d.cuts.rank_count()
}
