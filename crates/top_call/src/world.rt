ghost use Rattle.std.specs.Prelude.{◌≡◌, ◌≤◌, IfOk};
ghost use Rattle.deck_file.specs.declared.limits.TheConstants.{MOST_STEPS};
ghost use Rattle.deck_file.specs.Laws.{IsWithinLimits};
ghost use Rattle.rank_step.specs.World.{StandsFor};
ghost use Rattle.run_model.specs.Setup.{Setup};
ghost use Rattle.top_call.specs.Run.{AreWorkers, setup_of};
ghost use Rattle.top_call.specs.Steps.{TakesStep};

use crate::workers::Workers;
use deck_file::Deck;
use dump_text::write_step;
use kern_types::Typed;
use particle_file::{Particles, bodies};
use pf_io::Gate;
use pf_num::OutOfMemory;
use rank_step::{StepFault, World, WorldSetup};
use run_model::{RankLine, Sequence};
use std::alloc::Global;
use std::sync::Wait;
use std::thread::Threads;

/// The world of particles as they were read.
pub(crate) fn world_of(
    alloc: Global,
    deck: &Deck,
    kernel: Typed,
    particles: Particles,
) -> Result<World, OutOfMemory>
    requires within { IsWithinLimits deck.now }
    ensures due { IfOk result (λ world. world.due ≡ 0) }
    ensures stands { IfOk result (λ world. StandsFor world (setup_of deck.now kernel particles)) }
{
    let setup = WorldSetup {
        bodies: bodies(&particles).to_vec(alloc)?,
        grid: deck.grid,
        theta: deck.theta,
        group: deck.group,
        dt: deck.dt,
        reuse: deck.reuse,
    };
    World::open(alloc, setup, kernel)
}

/// What a step tells.
#[derive(Drop)]
pub(crate) struct Dump {
    pub(crate) text: Vec<u8>,
    /// The counts of the ranks in it.
    pub(crate) ranks: Sequence<RankLine>,
}

/// The world after its next step, with what that step tells.
pub(crate) fn stepped<R: Threads + Wait + Sync, G: Gate>(
    workers: &Workers<'_, R, G>,
    alloc: Global,
    world: World,
) -> Result<(World, Dump), StepFault>
    requires few { world.due ≤ MOST_STEPS }
    requires workers { AreWorkers workers.now.count }
    ensures { (run : Setup) → StandsFor world run → TakesStep run world.due result }
{
    let (world, report) = world.step(workers.rt, alloc, workers.count, workers.gate)?;
    match write_step(alloc, &report.text) {
        Ok(text) => {
            let ranks = report.text.ranks;
            Ok((world, Dump { text, ranks }))
        }
        Err(OutOfMemory) => Err(StepFault::Memory),
    }
}
