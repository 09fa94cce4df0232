ghost use Rattle.std.specs.Prelude.{◌≡◌, ◌+◌, ◌*◌, ◌^◌, ◌≤◌, IfErr, IfOk};
ghost use Rattle.bench_input.specs.declared.deck.TheConstants.{STEPS};
ghost use Rattle.bench_input.specs.Setup.{bench_setup};
ghost use Rattle.command_frame.specs.Effects.{CarriesOut};
ghost use Rattle.command_frame.specs.Standing.{standing};
ghost use Rattle.command_frame.specs.Status.{HasRoom};
ghost use Rattle.command_frame.specs.Verdict.{speaks};
ghost use Rattle.pf_io.specs.Store.{Files};
ghost use Rattle.pf_model.specs.declared.limits.TheConstants.{MOST_PARTICLES};
ghost use Rattle.rank_step.specs.World.{StandsFor};
ghost use Rattle.run_model.specs.Setup.{Setup};
ghost use Rattle.top_call.specs.Bench.{BenchMeans, EndsBench, EndsUnsaid};
ghost use Rattle.top_call.specs.Run.{AreWorkers};
ghost use Rattle.top_call.specs.Steps.{TakesNext, TalliesRun, tally_before};

use crate::status::Status;
use crate::workers::Workers;
use crate::world::stepped;
use bench_input::{DT, GROUP, REUSE, STEPS, grid, kernel, particles, theta};
use bench_summary::{Tally, summary};
use command_frame::say_answer;
use kern_types::Typed;
use pf_io::{Gate, Store};
use pf_num::OutOfMemory;
use rank_step::{StepFault, World, WorldSetup};
use run_model::states_stand_before_the_end;
use std::alloc::Global;
use std::sync::Wait;
use std::thread::Threads;

/// Carries out the run of the benchmark in memory, and says its summary.
pub(crate) fn bench<R: Threads + Wait + Sync, S: Store, G: Gate>(
    workers: &Workers<'_, R, G>,
    alloc: Global,
    store: &mut S,
    count: u32,
    seed: u64,
) -> Status
    requires room { HasRoom (S.faults store.old) }
    requires workers { AreWorkers workers.now.count }
    requires few { count ≤ MOST_PARTICLES }
    ensures { CarriesOut EndsBench (BenchMeans count seed) result
        (standing (S.told store.old) (S.faults store.old) (S.is_steady store.old))
        (standing (S.told store.new) (S.faults store.new) (S.is_steady store.new)) }
{
    match answer(workers, alloc, count, seed) {
        Ok(text) => say_answer(store, &text),
        Err(status) => status,
    }
}

// The summary, or how the benchmark ends without one.
fn answer<R: Threads + Wait + Sync, G: Gate>(
    workers: &Workers<'_, R, G>,
    alloc: Global,
    count: u32,
    seed: u64,
) -> Result<Vec<u8>, Status>
    requires workers { AreWorkers workers.now.count }
    requires few { count ≤ MOST_PARTICLES }
    ensures answered { IfOk result (λ text. (files : Files) → BenchMeans count seed files (speaks text.items)) }
    ensures unsaid { IfErr result (EndsUnsaid count seed) }
{
    let Ok(kernel) = kernel(alloc) else {
        return Err(Status::Memory);
    };
    let tally = tallied(workers, alloc, count, seed, kernel)?;
    match summary(alloc, count, seed, &tally) {
        Ok(text) => Ok(text),
        Err(OutOfMemory) => Err(Status::Memory),
    }
}

// The world of the benchmark's particles.
fn bench_world(alloc: Global, count: u32, seed: u64, kernel: Typed) -> Result<World, OutOfMemory>
    requires { count ≤ MOST_PARTICLES }
    ensures due { IfOk result (λ world. world.due ≡ 0) }
    ensures stands { IfOk result (λ world. StandsFor world (bench_setup count seed kernel)) }
{
    let setup = WorldSetup {
        bodies: particles(alloc, count, seed)?,
        grid: grid(),
        theta: theta(),
        group: GROUP,
        dt: DT,
        reuse: REUSE,
    };
    World::open(alloc, setup, kernel)
}

// What all steps of the benchmark's run come to, or how it ends before.
fn tallied<R: Threads + Wait + Sync, G: Gate>(
    workers: &Workers<'_, R, G>,
    alloc: Global,
    count: u32,
    seed: u64,
    kernel: Typed,
) -> Result<Tally, Status>
    ghost run: { Setup }
    requires workers { AreWorkers workers.now.count }
    requires few { count ≤ MOST_PARTICLES }
    requires run { run ≡ bench_setup count seed kernel }
    ensures { TalliesRun run result }
{
    states_stand_before_the_end();
    let Ok(mut world) = bench_world(alloc, count, seed, kernel) else {
        return Err(Status::Memory);
    };
    let mut tally = Tally::new();
    for step in 0..STEPS + 1 {
        world = tally_step(workers, alloc, world, step, &mut tally)?;
    }
    Ok(tally)
}

// The world after a step, which the tally takes.
fn tally_step<R: Threads + Wait + Sync, G: Gate>(
    workers: &Workers<'_, R, G>,
    alloc: Global,
    world: World,
    step: u32,
    tally: &mut Tally,
) -> Result<World, Status>
    ghost run: { Setup }
    requires due { world.due ≡ step }
    requires stands { StandsFor world run }
    requires few { step ≤ STEPS }
    requires workers { AreWorkers workers.now.count }
    requires room { tally.old.bytes ≤ step * 2 ^ 64 }
    requires tallied { tally.old ≡ tally_before run step }
    ensures room { IfOk result (λ after. tally.new.bytes ≤ (step + 1) * 2 ^ 64) }
    ensures takes { TakesNext run step tally.new result }
{
    match stepped(workers, alloc, world) {
        Ok((after, dump)) => {
            tally.take(&dump.text, dump.ranks.as_slice());
            Ok(after)
        }
        Err(StepFault::Numeric(fault)) => Err(Status::Numeric(step, fault)),
        Err(StepFault::Lists(count)) => Err(Status::Lists(step, count)),
        Err(StepFault::Memory) => Err(Status::Memory),
    }
}
