ghost use Rattle.std.specs.Prelude.{◌≡◌, ◌-◌, ◌<◌, ◌^◌, None, IsTrue};
ghost use Rattle.std.specs.List.{concat};
ghost use Rattle.command_frame.specs.Effects.{CarriesOut};
ghost use Rattle.command_frame.specs.Output.{Appends, Gives};
ghost use Rattle.command_frame.specs.Standing.{standing};
ghost use Rattle.command_frame.specs.Status.{EndsWriting, HasRoom, counts_after, failed_call};
ghost use Rattle.command_frame.specs.Verdict.{writes};
ghost use Rattle.deck_file.specs.Laws.{IsWithinLimits};
ghost use Rattle.run_model.specs.Setup.{Setup};
ghost use Rattle.top_call.specs.Run.{AreWorkers, run_verdict, setup_of};
ghost use Rattle.top_call.specs.Steps.{no_run};

use crate::inputs::file_name;
use crate::status::{Refusal, Status};
use crate::workers::Workers;
use crate::world::{stepped, world_of};
use command_frame::{Next, StoreCall};
use deck_file::Deck;
use kern_types::Typed;
use particle_file::Particles;
use pf_io::{Gate, Store, StoreErr, WriteFault, write_all};
use rank_step::{StepFault, World};
use run_model::{Fault, states_stand_before_the_end};
use std::alloc::Global;
use std::marker::{Brand, Model, PhantomData};
use std::sync::Wait;
use std::thread::Threads;

/// A run, which contracts alone read.
pub(crate) trait Run {
    ghost setup: { Setup };
}

impl Run for Brand {
    ghost setup = { no_run };
}

/// The dumps of a run that are still to come.
#[derive(Drop)]
struct Dumps<U: Run> {
    // None once a step has failed
    world: Option<World>,
    // the number of the next step, and of the last
    next: u32,
    steps: u32,
    run: PhantomData<U>,
}

impl<U: Run> Model for Dumps<U> {
    ghost use Rattle.std.specs.Prelude.{MatchOption};
    ghost use Rattle.rank_step.specs.World.{StandsFor};
    ghost use Rattle.top_call.specs.Steps.{Coming, coming, IsDue};

    ghost Value = { Coming };

    ghost view = { λ d. coming U.setup d.world d.next };

    ghost invariant = { λ d. MatchOption d.world (Unit {0}) (λ w.
        IsDue w.due (StandsFor w U.setup) U.setup d.next d.steps) };
}

impl<U: Run> Dumps<U> {
    // The text of the next step, or how the run ends.
    fn next<R: Threads + Wait + Sync, G: Gate>(
        &mut self,
        workers: &Workers<'_, R, G>,
        alloc: Global,
    ) -> Next<Refusal, Fault>
        requires { AreWorkers workers.now.count }
        ensures { Gives result self.old.texts self.old.last self.new.texts self.new.last }
    {
        states_stand_before_the_end();
        let Some(world) = self.world.take() else {
            return Next::Memory;
        };
        if self.next > self.steps {
            return Next::End(Status::Done);
        }
        match stepped(workers, alloc, world) {
            Ok((world, dump)) => {
                self.world = Some(world);
                self.next += 1;
                Next::Piece(dump.text)
            }
            Err(StepFault::Numeric(fault)) => Next::End(Status::Numeric(self.next, fault)),
            Err(StepFault::Lists(count)) => Next::End(Status::Lists(self.next, count)),
            Err(StepFault::Memory) => Next::Memory,
        }
    }
}

/// Writes the dumps of a run to the deck's output.
pub(crate) fn write_dumps<U: Run, R: Threads + Wait + Sync, S: Store, G: Gate>(
    workers: &Workers<'_, R, G>,
    alloc: Global,
    store: &mut S,
    deck: &Deck,
    kernel: Typed,
    particles: Particles,
) -> Status
    requires room { HasRoom (S.faults store.old) }
    requires within { IsWithinLimits deck.now }
    requires workers { AreWorkers workers.now.count }
    requires run { U.setup ≡ setup_of deck.now kernel particles }
    ensures { CarriesOut EndsWriting
        (λ files verdict. verdict ≡ run_verdict deck.now.out (setup_of deck.now kernel particles)) result
        (standing (S.told store.old) (S.faults store.old) (S.is_steady store.old))
        (standing (S.told store.new) (S.faults store.new) (S.is_steady store.new)) }
{
    let Ok(world) = world_of(alloc, deck, kernel, particles) else {
        return Status::Memory;
    };
    let mut dumps = Dumps::<U> {
        world: Some(world),
        next: 0,
        steps: deck.steps,
        run: PhantomData,
    };
    write(workers, alloc, store, file_name(&deck.out), &mut dumps)
}

// Creates the output, and writes each dump to it as it comes.
fn write<U: Run, R: Threads + Wait + Sync, S: Store, G: Gate>(
    workers: &Workers<'_, R, G>,
    alloc: Global,
    store: &mut S,
    out: &str,
    dumps: &mut Dumps<U>,
) -> Status
    requires room { HasRoom (S.faults store.old) }
    requires workers { AreWorkers workers.now.count }
    ensures { CarriesOut EndsWriting
        (λ files verdict. verdict ≡ writes out.now (concat dumps.old.texts) dumps.old.last) result
        (standing (S.told store.old) (S.faults store.old) (S.is_steady store.old))
        (standing (S.told store.new) (S.faults store.new) (S.is_steady store.new)) }
{
    match store.create(out) {
        Ok(()) => append(workers, alloc, store, dumps),
        Err(StoreErr::Failed) => Status::StoreFault(StoreCall::Create),
        Err(StoreErr::Memory) => Status::Memory,
    }
}

// Appends each dump to the sink as it comes.
fn append<U: Run, R: Threads + Wait + Sync, S: Store, G: Gate>(
    workers: &Workers<'_, R, G>,
    alloc: Global,
    store: &mut S,
    dumps: &mut Dumps<U>,
) -> Status
    requires room { (S.faults store.old).writes < 2 ^ 64 - 1 }
    requires workers { AreWorkers workers.now.count }

    ensures appended { Appends dumps.old.texts dumps.old.last result (S.told store.old) (S.told store.new) }
    ensures counts { S.faults store.new ≡ counts_after (failed_call result) (S.faults store.old) }
    ensures stays_steady { IsTrue (S.is_steady store.old) → IsTrue (S.is_steady store.new) }
    ensures steady { IsTrue (S.is_steady store.old) → IsTrue (S.has_sink store.old) → failed_call result ≡ None }
{
    loop {
        match dumps.next(workers, alloc) {
            Next::Piece(text) => match write_all(store, &text) {
                Ok(()) => {}
                Err(WriteFault::WriteFailed) => return Status::StoreFault(StoreCall::Write),
                Err(WriteFault::Memory) => return Status::Memory,
            },
            Next::End(status) => return status,
            Next::Memory => return Status::Memory,
        }
    }
}
