ghost use Rattle.std.specs.Prelude.{◌≡◌, ◌-◌, ◌<◌, ◌^◌, ◌⊎◌, None, map};
ghost use Rattle.command_line.specs.Words.{command_of};
ghost use Rattle.command_frame.specs.Clauses.{Concludes};
ghost use Rattle.command_frame.specs.Effects.{CarriesOut, SaysLine};
ghost use Rattle.command_frame.specs.Standing.{standing};
ghost use Rattle.command_frame.specs.Status.{HasRoom};
ghost use Rattle.command_frame.specs.declared.status.Status.TheVariants.{Memory, Usage};
ghost use Rattle.top_call.specs.Said.{line_of};
ghost use Rattle.top_call.specs.Words.{EndsWords, OneVerdict, SomeVerdict, WordsMean};

use crate::bench::bench;
use crate::run::run;
use crate::said::said_line;
use crate::status::Status;
use crate::workers::Workers;
use command_line::Command;
use pf_io::{Gate, Store, StoreErr};
use pf_num::OutOfMemory;
use std::alloc::Global;
use std::convert::AsStr;
use std::sync::Wait;
use std::thread::Threads;

/// Runs the command that the words after the program's name ask for. Its files are those of the store, and each
/// worker calls the gate as a phase of a step begins. What ended it otherwise than done is said in one line.
pub fn fdps<R: Threads + Wait + Sync, W: AsStr, S: Store, G: Gate>(
    rt: &R,
    alloc: Global,
    words: &[W],
    store: &mut S,
    gate: &G,
) -> Status
    requires { HasRoom (S.faults store.old) }

    ensures usage { command_of (map W.text words.now) ≡ None → (result ≡ Usage) ⊎ (result ≡ Memory) }
    ensures usage_only { result ≡ Usage → command_of (map W.text words.now) ≡ None }
    ensures concludes { Concludes (EndsWords (map W.text words.now)) (WordsMean (map W.text words.now)) line_of result
        (standing (S.told store.old) (S.faults store.old) (S.is_steady store.old))
        (standing (S.told store.new) (S.faults store.new) (S.is_steady store.new)) }
{
    one_verdict();
    let status = carry_out(rt, alloc, words, store, gate);
    say(alloc, store, status)
}

// Carries out what the words ask for, without its line.
fn carry_out<R: Threads + Wait + Sync, W: AsStr, S: Store, G: Gate>(
    rt: &R,
    alloc: Global,
    words: &[W],
    store: &mut S,
    gate: &G,
) -> Status
    requires { HasRoom (S.faults store.old) }
    ensures { CarriesOut (EndsWords (map W.text words.now)) (WordsMean (map W.text words.now)) result
        (standing (S.told store.old) (S.faults store.old) (S.is_steady store.old))
        (standing (S.told store.new) (S.faults store.new) (S.is_steady store.new)) }
{
    match command_line::read(alloc, words) {
        Ok(Some(Command::Run(deck, count))) => {
            let workers = Workers { rt, count, gate };
            run(&workers, alloc, store, deck)
        }
        Ok(Some(Command::Bench(particles, seed, count))) => {
            let workers = Workers { rt, count, gate };
            bench(&workers, alloc, store, particles, seed)
        }
        Ok(None) => Status::Usage,
        Err(OutOfMemory) => Status::Memory,
    }
}

// Says the line of a status, and answers the status that the program ends with.
fn say<S: Store>(alloc: Global, store: &mut S, status: Status) -> Status
    requires { (S.faults store.old).says < 2 ^ 64 - 1 }
    ensures { SaysLine line_of status result
        (standing (S.told store.old) (S.faults store.old) (S.is_steady store.old))
        (standing (S.told store.new) (S.faults store.new) (S.is_steady store.new)) }
{
    if matches!(status, Status::Done) {
        return status;
    }
    let Ok(line) = said_line(alloc, &status) else {
        return Status::Memory;
    };
    match store.say(&line) {
        Ok(()) | Err(StoreErr::Failed) => status,
        Err(StoreErr::Memory) => Status::Memory,
    }
}

/// The words of the program have at most one verdict on the contents of its files.
pub fn one_verdict()
    ensures { OneVerdict }
{
    kern_token::one_reading();
    kern_tree::one_answer();
    kern_types::one_typing();
    deck_file::one_reading();
    bench_input::bench_kernels_are_one();
}

/// The words of the program have a verdict on any contents of its files.
pub fn some_verdict()
    ensures { SomeVerdict }
{
    kern_token::one_reading();
    kern_parse::some_answer();
    kern_types::one_typing();
    deck_file::one_reading();
    bench_input::bench_text_is_a_kernel();
}
