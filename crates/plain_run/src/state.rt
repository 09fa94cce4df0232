ghost use Rattle.std.specs.Prelude.{◌≡◌, ◌++◌, ◌∷◌, [], IfOk, IfErr, OnOk, None, sum_by, length};
ghost use Rattle.pf_model.specs.Particles.{AreBodies};
ghost use Rattle.pf_model.specs.Groups.{all_groups, group_list};
ghost use Rattle.run_model.specs.Force.{first_given};
ghost use Rattle.run_model.specs.Run as rules;
ghost use Rattle.plain_run.specs.Lists.{HaveOneOrder};
ghost use Rattle.plain_run.specs.Runs.{build_fault, forces_and_kick_fault, later_fault};
ghost use Rattle.run_model.specs.Answers.{StopsAt};
ghost use Rattle.plain_run.specs.Runs.{state_taken, forced_by};

use crate::forces::{ForceStop, slow_forces};
use crate::listing::{list_for, lists_of, rank_count};
use crate::ordering::by_id;
use crate::setup::RunSetup;
use model_laws::{
    groups_are_few, lists_are_short, orders_by_id_have_all, orders_by_id_have_distinct_ids,
};
use pf_model::{Body, Grid, Theta};
use pf_num::OutOfMemory;
use run_model::{Fault, StepFault};
use run_moves::{Forced, Motion, kick_again, moved};
use std::alloc::{AllocError, Global};
use std::marker::Model;

// The most entries of all lists together.
const MOST_ENTRIES: u64 = 1 << 24;

// The particles after a step by ascending id, with their forces, and as they were at the last build.
#[derive(Drop)]
pub(crate) struct SlowState {
    pub(crate) bodies: Vec<Forced>,
    pub(crate) built: Vec<Body>,
}

impl Model for SlowState {
    ghost use Rattle.run_model.specs.Run.{State};
    ghost use Rattle.plain_run.specs.Runs.{IsStill};

    ghost Value = { State };

    ghost view = { λ s. record { bodies = s.bodies.items; built = s.built.items } };

    ghost invariant = { λ s. IsStill s.bodies.items s.built.items };
}

// state(0), or its first fault: a build on the particles as read, and forces.
pub(crate) fn start(alloc: Global, run: &RunSetup) -> Result<SlowState, StepFault>
    ensures state { IfOk result (λ now. now ≡ rules.state_at_start run.now) }
    ensures no_fault { OnOk result (rules.fault_at_start run.now ≡ None) }
    ensures fault { IfErr result (StopsAt (rules.fault_at_start run.now)) }
{
    orders_by_id_have_all();
    orders_by_id_have_distinct_ids();
    let built = by_id(alloc, &run.bodies)?;
    few_lists(alloc, run, &built)?;
    let bodies = with_forces(alloc, run, &built, &built)?;
    Ok(SlowState { bodies, built })
}

// state(s) after the state before it, or its first fault.
pub(crate) fn after(
    alloc: Global,
    run: &RunSetup,
    step: u32,
    before: &SlowState,
) -> Result<SlowState, StepFault>
    ensures state { IfOk result (λ now. now ≡ rules.state_after run.now step before.now) }
    ensures no_fault { OnOk result (rules.fault_after run.now step before.now ≡ None) }
    ensures fault { IfErr result (StopsAt (rules.fault_after run.now step before.now)) }
{
    let motion = Motion::of(&run.kernel, run.theta, run.dt);
    let now = moved(alloc, motion, &before.bodies)?;
    after_moves(alloc, run, step, before, &now)
}

// The same once the particles have moved.
fn after_moves(
    alloc: Global,
    run: &RunSetup,
    step: u32,
    before: &SlowState,
    now: &[Body],
) -> Result<SlowState, StepFault>
    requires { now.now ≡ rules.moved run.now before.now }
    ensures state { IfOk result (λ after. after ≡ rules.state_after run.now step before.now) }
    ensures no_fault { OnOk result (later_fault run.now step before.now ≡ None) }
    ensures fault { IfErr result (StopsAt (later_fault run.now step before.now)) }
{
    let built = built_at(alloc, run, step, before, now)?;
    taken(alloc, run, built, now)
}

// The particles of the last build, unless it has too many entries.
fn built_at(
    alloc: Global,
    run: &RunSetup,
    step: u32,
    before: &SlowState,
    now: &[Body],
) -> Result<Vec<Body>, StepFault>
    requires { now.now ≡ rules.moved run.now before.now }
    ensures built { IfOk result (λ built. built.items ≡ rules.built_at run.now step before.now) }
    ensures bodies { IfOk result (λ built. AreBodies built.items) }
    ensures same { IfOk result (λ built. HaveOneOrder built.items now.now) }
    ensures no_fault { OnOk result (build_fault run.now step before.now ≡ None) }
    ensures fault { IfErr result (StopsAt (build_fault run.now step before.now)) }
{
    if step % run.reuse != 0 {
        return Ok(copied(alloc, &before.built)?);
    }
    few_lists(alloc, run, now)?;
    Ok(copied(alloc, now)?)
}

fn copied(alloc: Global, bodies: &[Body]) -> Result<Vec<Body>, AllocError>
    ensures { IfOk result (λ copy. copy.items ≡ bodies.now) }
{
    bodies.to_vec(alloc)
}

// Forces on the particles by the lists of a build, and the second half kick.
fn taken(
    alloc: Global,
    run: &RunSetup,
    built: Vec<Body>,
    now: &[Body],
) -> Result<SlowState, StepFault>
    requires built { AreBodies built.items }
    requires same { HaveOneOrder built.items now.now }
    ensures state { IfOk result (λ after. after ≡ state_taken run.now built.items now.now) }
    ensures no_fault { OnOk result (forces_and_kick_fault run.now built.items now.now ≡ None) }
    ensures fault { IfErr result (StopsAt (forces_and_kick_fault run.now built.items now.now)) }
{
    let motion = Motion::of(&run.kernel, run.theta, run.dt);
    let mut bodies = with_forces(alloc, run, &built, now)?;
    kick_again(motion, &mut bodies)?;
    Ok(SlowState { bodies, built })
}

// The particles with the forces on them by the lists of a build, or the first fault by id.
fn with_forces(
    alloc: Global,
    run: &RunSetup,
    built: &[Body],
    now: &[Body],
) -> Result<Vec<Forced>, StepFault>
    requires built { AreBodies built.now }
    requires same { HaveOneOrder built.now now.now }
    ensures forces { IfOk result (λ bodies. bodies.items ≡ rules.with_forces run.now built.now now.now) }
    ensures no_fault { OnOk result (first_given (rules.forces_fault run.now built.now now.now) now.now ≡ None) }
    ensures fault { IfErr result (StopsAt (first_given (rules.forces_fault run.now built.now now.now) now.now)) }
{
    let mut bodies = Vec::new(alloc);
    for i in now {
        push(&mut bodies, forced(alloc, run, built, now, i)?)?;
    }
    Ok(bodies)
}

fn push(bodies: &mut Vec<Forced>, forced: Forced) -> Result<(), AllocError>
    ensures { OnOk result (bodies.new.items ≡ bodies.old.items ++ forced ∷ []) }
{
    bodies.push(forced)?;
    Ok(())
}

// A particle with the forces on it, or its fault.
fn forced(
    alloc: Global,
    run: &RunSetup,
    built: &[Body],
    now: &[Body],
    i: &Body,
) -> Result<Forced, StepFault>
    requires built { AreBodies built.now }
    requires same { HaveOneOrder built.now now.now }
    ensures forces { IfOk result (λ forced. forced ≡ forced_by run.now built.now now.now i.now) }
    ensures no_fault { OnOk result (rules.forces_fault run.now built.now now.now i.now ≡ None) }
    ensures fault { IfErr result (StopsAt (rules.forces_fault run.now built.now now.now i.now)) }
{
    let entries = list_for(alloc, run.grid, run.theta, run.group, built, now, i)?;
    match slow_forces(alloc, &run.kernel, run.theta.edge, &entries, i) {
        Ok(forces) => Ok(Forced { body: *i, forces }),
        Err(ForceStop::Fault(what)) => Err(StepFault::Numeric(Fault { id: i.id, what })),
        Err(ForceStop::Memory) => Err(StepFault::Memory),
    }
}

// Whether the lists of a build have few enough entries.
fn few_lists(alloc: Global, run: &RunSetup, built: &[Body]) -> Result<(), StepFault>
    requires { AreBodies built.now }
    ensures no_fault { OnOk result (rules.lists_fault run.now built.now ≡ None) }
    ensures fault { IfErr result (StopsAt (rules.lists_fault run.now built.now)) }
{
    let count = entry_count(alloc, run.grid, run.theta, run.group, built)?;
    if count > MOST_ENTRIES {
        return Err(StepFault::Lists(count));
    }
    Ok(())
}

// How many entries all lists of a build have.
fn entry_count(
    alloc: Global,
    grid: Grid,
    theta: Theta,
    limit: u32,
    built: &[Body],
) -> Result<u64, OutOfMemory>
    requires { AreBodies built.now }
    ensures { IfOk result (λ count.
        count ≡ sum_by (λ group. length (group_list theta built.now group)) (all_groups limit grid built.now)) }
{
    groups_are_few();
    lists_are_short();
    let mut count = 0;
    for rank in 0..rank_count(grid) {
        count += lists_of(alloc, grid, theta, limit, built, rank)?.len() as u64;
    }
    Ok(count)
}
