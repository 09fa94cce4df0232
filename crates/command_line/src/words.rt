ghost use Rattle.std.specs.Prelude.{◌≡◌, IfOk, map, option_map};
ghost use Rattle.clap.specs.Words.{app_of, first_of, found_of, rows_of};
ghost use Rattle.command_line.specs.Words.{bench_form, bench_in, command_named, command_of, given_by};
ghost use Rattle.command_line.specs.Words.{number_in, run_form, run_in, with_texts, workers_in};

use crate::Command;
use crate::form::Form;
use crate::number::number_within;
use clap::ArgMatches;
use pf_num::OutOfMemory;
use std::alloc::{AllocError, Global};
use std::convert::AsStr;

/// The command that the words after the program's name give, if they give one.
#[tactic(auto, unfolding(crate::specs::Words::command_of))]
pub fn read<W: AsStr>(alloc: Global, words: &[W]) -> Result<Option<Command<&str>>, OutOfMemory>
    ensures { IfOk result (λ command. with_texts command ≡ command_of (map W.text words.entry.now)) }
{
    match words {
        [] => Ok(None),
        [first, rest @ ..] => named(alloc, first.as_str(), rest),
    }
}

// The command of this name that the words after it give.
fn named<'a, W: AsStr>(
    alloc: Global,
    name: &str,
    words: &'a [W],
) -> Result<Option<Command<&'a str>>, OutOfMemory>
    ensures { IfOk result (λ command. with_texts command ≡ command_named name.now (map W.text words.entry.now)) }
{
    match name {
        "run" => run(alloc, words),
        "bench" => bench(alloc, words),
        _ => Ok(None),
    }
}

fn run<W: AsStr>(alloc: Global, words: &[W]) -> Result<Option<Command<&str>>, OutOfMemory>
    ensures { IfOk result (λ command. with_texts command ≡ given_by run_form run_in (map W.text words.entry.now)) }
{
    match run_form(alloc)?.given(words)? {
        Some(given) => Ok(run_in(&given)),
        None => Ok(None),
    }
}

fn run_form<'a>(alloc: Global) -> Result<Form<'a>, AllocError>
    ensures { IfOk result (λ form. app_of form.command ≡ run_form) }
{
    Form::new(alloc).word(alloc, "deck")?.workers(alloc)
}

fn run_in<'a>(given: &ArgMatches<'a>) -> Option<Command<&'a str>>
    ensures { with_texts result ≡ run_in (rows_of (found_of given.now)) }
{
    Some(Command::Run(value(given, "deck")?, workers(given)?))
}

fn bench<W: AsStr>(alloc: Global, words: &[W]) -> Result<Option<Command<&str>>, OutOfMemory>
    ensures { IfOk result (λ command. with_texts command ≡ given_by bench_form bench_in (map W.text words.entry.now)) }
{
    match bench_form(alloc)?.given(words)? {
        Some(given) => Ok(bench_in(&given)),
        None => Ok(None),
    }
}

fn bench_form<'a>(alloc: Global) -> Result<Form<'a>, AllocError>
    ensures { IfOk result (λ form. app_of form.command ≡ bench_form) }
{
    Form::new(alloc)
        .word(alloc, "particles")?
        .word(alloc, "seed")?
        .workers(alloc)
}

fn bench_in<'a>(given: &ArgMatches<'a>) -> Option<Command<&'a str>>
    ensures { with_texts result ≡ bench_in (rows_of (found_of given.now)) }
{
    let particles = number(given, "particles", 0, 65_536)?;
    let seed = number(given, "seed", 0, u64::MAX)?;
    Some(Command::Bench(particles as u32, seed, workers(given)?))
}

// The word with this id.
fn value<'a>(given: &ArgMatches<'a>, id: &str) -> Option<&'a str>
    ensures { option_map (λ word. word.now) result ≡ first_of id.now (rows_of (found_of given.now)) }
{
    given.get_str(id)
}

// The number of the word with this id.
fn number(given: &ArgMatches, id: &str, least: u64, most: u64) -> Option<u64>
    ensures { result ≡ number_in id.now least most (rows_of (found_of given.now)) }
{
    number_within(value(given, id)?, least, most)
}

// One worker, unless the words say how many.
fn workers(given: &ArgMatches) -> Option<u32>
    ensures { result ≡ workers_in (rows_of (found_of given.now)) }
{
    match value(given, "workers") {
        Some(word) => Some(number_within(word, 1, 64)? as u32),
        None => Some(1),
    }
}
