ghost use Rattle.command_frame.specs.Effects.{CarriesOut};
ghost use Rattle.command_frame.specs.Standing.{standing};
ghost use Rattle.command_frame.specs.Status.{HasRoom};
ghost use Rattle.deck_file.specs.Laws.{IsWithinLimits};
ghost use Rattle.top_call.specs.Run.{AreWorkers, EndsRun, RunMeans, WithDeck, WithKernel};

use crate::dumps::write_dumps;
use crate::inputs::{file_name, read_deck, read_kernel, read_particles};
use crate::status::Status;
use crate::workers::Workers;
use deck_file::Deck;
use kern_types::Typed;
use pf_io::{Gate, Store};
use std::alloc::Global;
use std::marker::Brand;
use std::sync::Wait;
use std::thread::Threads;

/// Carries out the run of the deck in the file of this name: reads what it names, and writes the dumps.
pub(crate) fn run<R: Threads + Wait + Sync, S: Store, G: Gate>(
    workers: &Workers<'_, R, G>,
    alloc: Global,
    store: &mut S,
    name: &str,
) -> Status
    requires room { HasRoom (S.faults store.old) }
    requires workers { AreWorkers workers.now.count }
    ensures { CarriesOut EndsRun (RunMeans name.now) result
        (standing (S.told store.old) (S.faults store.old) (S.is_steady store.old))
        (standing (S.told store.new) (S.faults store.new) (S.is_steady store.new)) }
{
    match read_deck(alloc, store, name) {
        Ok(deck) => with_deck(workers, alloc, store, &deck),
        Err(status) => status,
    }
}

fn with_deck<R: Threads + Wait + Sync, S: Store, G: Gate>(
    workers: &Workers<'_, R, G>,
    alloc: Global,
    store: &mut S,
    deck: &Deck,
) -> Status
    requires room { HasRoom (S.faults store.old) }
    requires workers { AreWorkers workers.now.count }
    requires within { IsWithinLimits deck.now }
    ensures { CarriesOut EndsRun (WithDeck deck.now) result
        (standing (S.told store.old) (S.faults store.old) (S.is_steady store.old))
        (standing (S.told store.new) (S.faults store.new) (S.is_steady store.new)) }
{
    match read_kernel(alloc, store, file_name(&deck.kernel)) {
        Ok(kernel) => with_kernel(workers, alloc, store, deck, kernel),
        Err(status) => status,
    }
}

fn with_kernel<R: Threads + Wait + Sync, S: Store, G: Gate>(
    workers: &Workers<'_, R, G>,
    alloc: Global,
    store: &mut S,
    deck: &Deck,
    kernel: Typed,
) -> Status
    requires room { HasRoom (S.faults store.old) }
    requires workers { AreWorkers workers.now.count }
    requires within { IsWithinLimits deck.now }
    ensures { CarriesOut EndsRun (WithKernel deck.now kernel) result
        (standing (S.told store.old) (S.faults store.old) (S.is_steady store.old))
        (standing (S.told store.new) (S.faults store.new) (S.is_steady store.new)) }
{
    match read_particles(alloc, store, file_name(&deck.particles)) {
        Ok(particles) => {
            write_dumps::<Brand, R, S, G>(workers, alloc, store, deck, kernel, particles)
        },
        Err(status) => status,
    }
}
