// The program `list_bench N SEED`: it makes the N particles of the benchmark's generator, their tree on one rank, its
// groups and all their interaction lists, and says how many entries these have. Time and memory are measured from
// outside.
#![tactic(auto)]

mod counts;
mod fault;

ghost use Rattle.std.specs.Prelude.{◌≤◌, IfOk};

use anyhow::{Context, bail};
use bench_input::particles;
use counts::counts_of;
use pf_model::MOST_PARTICLES;
use std::env;

fn main(rt: HostRuntime) -> anyhow::Result<()> {
    let alloc = rt.alloc();
    let words: Vec<String> = env::args(&rt)?.skip(1).collect(alloc)?;
    let (count, seed) = asked(&words)?;
    let bodies = particles(alloc, count, seed)?;
    let counts = counts_of(&rt, alloc, &bodies)?;
    println!(rt; "particles {count} seed {seed}")?;
    println!(rt; "groups {}", counts.groups)?;
    println!(rt; "cells {}", counts.cells)?;
    println!(rt; "particles in lists {}", counts.particles)?;
    Ok(())
}

// How many particles, and from which seed.
fn asked(words: &[String]) -> anyhow::Result<(u32, u64)>
    ensures { IfOk result (λ r. r.0 ≤ MOST_PARTICLES) }
{
    let [count, seed] = words else {
        bail!("call it as: list_bench N SEED");
    };
    let count = count.parse::<u32>().context("N is no number")?;
    let seed = seed.parse::<u64>().context("SEED is no number")?;
    if count > MOST_PARTICLES {
        bail!("there are at most {MOST_PARTICLES} particles");
    }
    Ok((count, seed))
}
