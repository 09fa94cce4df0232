ghost use Rattle.std.specs.Prelude.{◌≡◌, ◌++◌, IfOk, OnOk};
ghost use Rattle.std.specs.List.{flat_map, enumerate_from};
ghost use Rattle.run_model.specs.StepText.{body_line, rank_line, step_line, step_text};

use crate::numbers::{push_labelled, push_numbers};
use pf_num::OutOfMemory;
use run_model::{BodyLine, RankLine, StepText};
use std::alloc::Global;

/// The canonical text of the step. Its time is linear in the length of the text.
pub fn write_step(alloc: Global, step: &StepText) -> Result<Vec<u8>, OutOfMemory>
    ensures { IfOk result (λ text. text.items ≡ step_text step.now) }
{
    let mut out = Vec::new(alloc);
    push_step_line(&mut out, step)?;
    push_rank_lines(&mut out, step.ranks.as_slice())?;
    push_body_lines(&mut out, step.rows.as_slice())?;
    Ok(out)
}

fn push_step_line(out: &mut Vec<u8>, step: &StepText) -> Result<(), OutOfMemory>
    ensures { OnOk result (out.new.items ≡ out.old.items ++ step_line step.now) }
{
    push_labelled(out, b"step ", u64::from(step.step))?;
    push_labelled(out, b" particles ", step.rows.as_slice().len() as u64)?;
    push_labelled(out, b" ranks ", step.ranks.as_slice().len() as u64)?;
    out.push(b'\n')?;
    Ok(())
}

fn push_rank_lines(out: &mut Vec<u8>, ranks: &[RankLine]) -> Result<(), OutOfMemory>
    ensures { OnOk result (out.new.items ≡ out.old.items
        ++ flat_map (λ r. rank_line r.0 r.1) (enumerate_from 0 ranks.now)) }
{
    for (rank, line) in ranks.iter().enumerate() {
        push_rank_line(out, rank, *line)?;
    }
    Ok(())
}

fn push_rank_line(out: &mut Vec<u8>, rank: usize, line: RankLine) -> Result<(), OutOfMemory>
    ensures { OnOk result (out.new.items ≡ out.old.items ++ rank_line rank line) }
{
    push_labelled(out, b"rank ", rank as u64)?;
    push_labelled(out, b" particles ", u64::from(line.particles))?;
    push_labelled(out, b" groups ", u64::from(line.groups))?;
    push_labelled(out, b" cells ", u64::from(line.cells))?;
    push_labelled(out, b" parts ", u64::from(line.parts))?;
    push_labelled(out, b" listcells ", line.listcells)?;
    push_labelled(out, b" listparts ", line.listparts)?;
    out.push(b'\n')?;
    Ok(())
}

fn push_body_lines(out: &mut Vec<u8>, rows: &[BodyLine]) -> Result<(), OutOfMemory>
    ensures { OnOk result (out.new.items ≡ out.old.items ++ flat_map body_line rows.now) }
{
    for row in rows {
        push_body_line(out, row)?;
    }
    Ok(())
}

fn push_body_line(out: &mut Vec<u8>, row: &BodyLine) -> Result<(), OutOfMemory>
    ensures { OnOk result (out.new.items ≡ out.old.items ++ body_line row.now) }
{
    let at = row.at;
    out.push(b'p')?;
    push_numbers(
        out,
        &[
            i64::from(row.id),
            i64::from(row.owner),
            i64::from(at.x),
            i64::from(at.y),
            i64::from(at.z),
        ],
    )?;
    push_numbers(out, &row.vel)?;
    push_numbers(out, row.forces.as_slice())?;
    out.push(b'\n')?;
    Ok(())
}
