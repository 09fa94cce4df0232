ghost use Rattle.std.specs.Prelude.{◌≡◌, IfOk, map};
ghost use Rattle.std.specs.List.{zip};
ghost use Rattle.rank_step.specs.Told.{row_with, text_with};

use pf_model::Body;
use run_model::{BodyLine, RankLine, Row, Sequence, StepText};
use run_moves::Forced;
use std::alloc::{AllocError, Global};

/// What a step tells of ranks with these counts, and of particles by ascending id, which had these owners at the last
/// build.
pub(crate) fn told(
    alloc: Global,
    step: u32,
    counts: Vec<RankLine>,
    owners: &[u32],
    bodies: &[Forced],
) -> Result<StepText, AllocError>
    ensures { IfOk result (λ text. text ≡ text_with step counts.items owners.now bodies.now) }
{
    Ok(StepText {
        step,
        ranks: Sequence::from_vec(counts),
        rows: Sequence::from_vec(rows(alloc, owners, bodies)?),
    })
}

fn rows(alloc: Global, owners: &[u32], bodies: &[Forced]) -> Result<Vec<BodyLine>, AllocError>
    ensures { IfOk result (λ rows. rows.items ≡ map row_with (zip owners.now bodies.now)) }
{
    let mut rows = Vec::with_capacity(alloc, bodies.len())?;
    for (owner, forced) in owners.iter().zip(bodies) {
        rows.push(row(alloc, *owner, forced)?)?;
    }
    Ok(rows)
}

fn row(alloc: Global, owner: u32, forced: &Forced) -> Result<BodyLine, AllocError>
    ensures { IfOk result (λ row. row ≡ row_with (owner, forced.now)) }
{
    let forces = forced.forces.as_slice().to_vec(alloc)?;
    Ok(line(owner, forced.body, Row::from_vec(forces)))
}

fn line(owner: u32, body: Body, forces: Row) -> BodyLine
    ensures { result ≡ row_with (owner, record { body = body; forces = forces }) }
{
    let vel = body.vel;
    BodyLine {
        id: body.id,
        owner,
        at: body.at,
        vel,
        forces,
    }
}
