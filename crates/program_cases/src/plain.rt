// What plain executors make of a case, by the definitions.

ghost use Rattle.std.specs.Prelude.{◌≤◌, IfOk, length};
ghost use Rattle.pf_model.specs.Particles.{AreBodies};
ghost use Rattle.deck_file.specs.Laws.{IsWithinLimits};

use crate::case::{Case, Role};
use crate::running::{KERNELS, same};
use anyhow::{Context, Result, bail, ensure};
use deck_file::{Deck, decks_keep_their_limits};
use kern_parse::parse;
use kern_token::{MOST_TEXT, tokens};
use kern_types::{Typed, check as check_types};
use pf_model::Body;
use plain_run::{RunSetup, slow_text};
use run_model::StepFault;
use std::alloc::Global;
use top_call::{Status, said_line};

/// The error is the first difference between the dumps and the line of the plain executors and those of the case, whose
/// deck is called `d` and whose particles `p`.
pub(crate) fn check(alloc: Global, case: &Case) -> Result<()> {
    let run = run_of(alloc, case)?;
    let mut dumps = Vec::new(alloc);
    let mut line = Vec::new(alloc);
    // After a fault no step has a text.
    for step in 0..=run.steps {
        match slow_text(alloc, &run, step) {
            Ok(dump) => dumps.extend_from_slice(&dump)?,
            Err(StepFault::Numeric(fault)) => {
                line = said_line(alloc, &Status::Numeric(step, fault))?;
            }
            Err(StepFault::Lists(count)) => line = said_line(alloc, &Status::Lists(step, count))?,
            Err(StepFault::Memory) => bail!("out of memory"),
        }
    }
    same("o", case.text(Role::Wanted, "o").unwrap_or(""), &dumps)?;
    same(
        "what is said",
        case.text(Role::Said, "").unwrap_or(""),
        &line,
    )
}

fn run_of(alloc: Global, case: &Case) -> Result<RunSetup> {
    let deck = case.text(Role::Given, "d").context("no deck d")?;
    let deck = deck_in(alloc, deck)?;
    let particles = case.text(Role::Given, "p").context("no particles p")?;
    let bodies = bodies_in(alloc, particles)?;
    let kernel = kernel_in(alloc, kernel_text(case, deck.kernel.as_bytes())?)?;
    Ok(run(deck, kernel, bodies))
}

// The run that the texts spell.
fn run(deck: Deck, kernel: Typed, bodies: Vec<Body>) -> RunSetup
    requires deck { IsWithinLimits deck }
    requires bodies { AreBodies bodies.items }
{
    RunSetup {
        kernel,
        bodies,
        grid: deck.grid,
        theta: deck.theta,
        group: deck.group,
        steps: deck.steps,
        dt: deck.dt,
        reuse: deck.reuse,
    }
}

fn kernel_text<'a>(case: &'a Case, name: &[u8]) -> Result<&'a str> {
    for (kernel, text) in &KERNELS {
        if kernel.as_bytes() == name {
            return Ok(*text);
        }
    }
    case.text(Role::Given, std::str::from_utf8(name)?)
        .context("no kernel")
}

fn kernel_in(alloc: Global, text: &str) -> Result<Typed> {
    ensure!(text.len() <= MOST_TEXT, "too large");
    let toks = tokens(alloc, text.as_bytes())?;
    Ok(check_types(alloc, parse(alloc, toks.as_slice())?)?)
}

fn deck_in(alloc: Global, text: &str) -> Result<Deck>
    ensures { IfOk result IsWithinLimits }
{
    decks_keep_their_limits();
    ensure!(text.len() <= MOST_TEXT, "too large");
    Ok(deck_file::read(alloc, text.as_bytes())?)
}

fn bodies_in(alloc: Global, text: &str) -> Result<Vec<Body>>
    ensures { IfOk result (λ bodies. AreBodies bodies.items) }
{
    ensure!(text.len() <= MOST_TEXT, "too large");
    let particles = particle_file::read(alloc, text.as_bytes())?;
    Ok(particle_file::bodies(&particles).to_vec(alloc)?)
}
