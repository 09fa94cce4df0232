ghost use Rattle.std.specs.Prelude.{◌≡◌, ◌≤◌, ◌-◌, IfOk, IfErr, OnOk, None, map, option_map};
ghost use Rattle.pf_model.specs.Particles.{AreBodies};
ghost use Rattle.run_model.specs.Run.{state, first_fault};
ghost use Rattle.run_model.specs.Text as rules;
ghost use Rattle.plain_run.specs.Reaching.{IsReached};
ghost use Rattle.plain_run.specs.Runs.{body_line_of};
ghost use Rattle.run_model.specs.Answers.{StopsAt};

use crate::counts::rank_lines;
use crate::domains::slow_owner;
use crate::kept::found;
use crate::setup::RunSetup;
use crate::state::{SlowState, after, start};
use dump_text::write_step;
use pf_model::Body;
use pf_num::OutOfMemory;
use run_model::{BodyLine, Fault, Row, Sequence, StepFault, StepText};
use run_moves::Forced;
use std::alloc::{AllocError, Global};

// Where a run is after a step.
#[derive(Drop)]
pub(crate) enum Reached {
    /// It has a state.
    At(SlowState),
    /// A particle has this fault at the step.
    Numeric(Fault),
    /// The lists of the step have so many entries, more than the limit.
    Lists(u64),
    /// An earlier step had a fault.
    Past,
}

/// The text of a step, by the definition. The text of a step that has no state, because an earlier one had a fault,
/// is empty. `Numeric` and `Lists` exactly where that is the first fault of this very step. It serves tests.
pub fn slow_text(alloc: Global, run: &RunSetup, step: u32) -> Result<Vec<u8>, StepFault>
    ensures text { IfOk result (λ text. text.items ≡ rules.text run.now step) }
    ensures no_fault { OnOk result (first_fault run.now step ≡ None) }
    ensures fault { IfErr result (StopsAt (first_fault run.now step)) }
{
    match slow_step(alloc, run, step) {
        Ok(Some(told)) => Ok(write_step(alloc, &told)?),
        Ok(None) => Ok(Vec::new(alloc)),
        Err(stop) => Err(stop),
    }
}

/// What the text of a step tells, by the definition: every step up to it is carried out. `None` exactly where an
/// earlier step had a fault. `Numeric` and `Lists` exactly where that is the first fault of this very step. It serves
/// tests.
pub fn slow_step(alloc: Global, run: &RunSetup, step: u32) -> Result<Option<StepText>, StepFault>
    ensures told { IfOk result (λ answer. answer ≡ option_map (rules.told run.now step) (state run.now step)) }
    ensures no_fault { OnOk result (first_fault run.now step ≡ None) }
    ensures fault { IfErr result (StopsAt (first_fault run.now step)) }
{
    match reach(alloc, run, step)? {
        Reached::At(now) => Ok(Some(told(alloc, run, step, &now)?)),
        Reached::Numeric(fault) => Err(StepFault::Numeric(fault)),
        Reached::Lists(count) => Err(StepFault::Lists(count)),
        Reached::Past => Ok(None),
    }
}

// Where a run is after a step.
fn reach(alloc: Global, run: &RunSetup, step: u32) -> Result<Reached, OutOfMemory>
    ensures { IfOk result (IsReached run.now step) }
{
    let mut reached = begun(alloc, run)?;
    for earlier in 0..step {
        reached = advanced(alloc, run, earlier + 1, reached)?;
    }
    Ok(reached)
}

// Where it is after step 0.
fn begun(alloc: Global, run: &RunSetup) -> Result<Reached, OutOfMemory>
    ensures { IfOk result (IsReached run.now 0) }
{
    match start(alloc, run) {
        Ok(now) => Ok(Reached::At(now)),
        Err(StepFault::Numeric(fault)) => Ok(Reached::Numeric(fault)),
        Err(StepFault::Lists(count)) => Ok(Reached::Lists(count)),
        Err(StepFault::Memory) => Err(OutOfMemory),
    }
}

// Where it is after a step, from where it was before.
fn advanced(
    alloc: Global,
    run: &RunSetup,
    step: u32,
    before: Reached,
) -> Result<Reached, OutOfMemory>
    requires some { 1 ≤ step }
    requires before { IsReached run.now (step - 1) before }
    ensures { IfOk result (IsReached run.now step) }
{
    let Reached::At(state) = before else {
        return Ok(Reached::Past);
    };
    match after(alloc, run, step, &state) {
        Ok(now) => Ok(Reached::At(now)),
        Err(StepFault::Numeric(fault)) => Ok(Reached::Numeric(fault)),
        Err(StepFault::Lists(count)) => Ok(Reached::Lists(count)),
        Err(StepFault::Memory) => Err(OutOfMemory),
    }
}

// What the dump of a step tells of its state.
fn told(alloc: Global, run: &RunSetup, step: u32, now: &SlowState) -> Result<StepText, OutOfMemory>
    ensures { IfOk result (λ text. text ≡ rules.told run.now step now.now) }
{
    Ok(StepText {
        step,
        ranks: Sequence::from_vec(rank_lines(alloc, run, &now.built)?),
        rows: Sequence::from_vec(body_lines(alloc, run, &now.built, &now.bodies)?),
    })
}

fn body_lines(
    alloc: Global,
    run: &RunSetup,
    built: &[Body],
    bodies: &[Forced],
) -> Result<Vec<BodyLine>, OutOfMemory>
    requires { AreBodies built.now }
    ensures { IfOk result (λ lines. lines.items ≡ map (rules.body_row run.now built.now) bodies.now) }
{
    let mut lines = Vec::new(alloc);
    for forced in bodies {
        lines.push(body_line(alloc, run, built, forced)?)?;
    }
    Ok(lines)
}

fn body_line(
    alloc: Global,
    run: &RunSetup,
    built: &[Body],
    forced: &Forced,
) -> Result<BodyLine, OutOfMemory>
    requires { AreBodies built.now }
    ensures { IfOk result (λ line. line ≡ rules.body_row run.now built.now forced.now) }
{
    let there = found(built, &forced.body);
    let owner = slow_owner(alloc, built, run.grid, there.at)?;
    Ok(line(&forced.body, owner, copied(alloc, &forced.forces)?))
}

fn copied(alloc: Global, row: &Row) -> Result<Row, AllocError>
    ensures { IfOk result (λ copy. copy ≡ row.now) }
{
    Ok(Row::from_vec(row.as_slice().to_vec(alloc)?))
}

fn line(body: &Body, owner: u32, forces: Row) -> BodyLine
    ensures { result ≡ body_line_of body.now owner forces }
{
    BodyLine {
        id: body.id,
        owner,
        at: body.at,
        vel: body.vel,
        forces,
    }
}
