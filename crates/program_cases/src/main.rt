// The worked cases of the program, texts in the folder that the argument names: each is run on files in memory and
// compared with what it must come to. It stands on the top call, and on plain executors.
#![tactic(auto)]

mod case;
mod plain;
mod running;

use anyhow::{Context, Result};
use case::Case;
use std::alloc::Global;
use std::rt::{Env, Files};
use std::sync::Wait;
use std::thread::Threads;
use std::{env, fs};

fn main(rt: HostRuntime) -> Result<()> {
    let folder = env::args(&rt)?.nth(1).context("no folder of cases")?;
    let names = names_in(&rt, folder.as_str())?;
    let mut well = 0usize;
    for name in &names {
        if is_well(&rt, name.as_str())? {
            well = well.saturating_add(1);
        }
    }
    let count = names.len();
    println!(rt; "{well} of {count} cases came to what they must")?;
    Ok(())
}

// The files of the folder, in the order of their names.
fn names_in(rt: &(impl Files + AllocGlobal + Clone + Drop), folder: &str) -> Result<Vec<String>> {
    let alloc = rt.alloc();
    let mut names = Vec::new(alloc);
    for entry in fs::read_dir(rt, folder)? {
        names.push(String::from_str(alloc, entry?.path().as_str())?)?;
    }
    names.sort()?;
    Ok(names)
}

// Whether the case of this file comes to what it must. Where it doesn't, a line says so.
fn is_well(
    rt: &(impl Files + Print + Threads + Wait + Sync + AllocGlobal),
    name: &str,
) -> Result<bool> {
    let text = fs::read_to_string(rt, name)?;
    if let Err(difference) = check(rt, rt.alloc(), text.as_str()) {
        println!(rt; "{name}: {difference:#}")?;
        return Ok(false);
    }
    Ok(true)
}

// The error is the first difference between what the case comes to and what it must.
fn check(rt: &(impl Threads + Wait + Sync), alloc: Global, text: &str) -> Result<()> {
    let case = Case::read(alloc, text)?;
    running::check(rt, alloc, &case)?;
    if case.setting("plain").is_some() {
        plain::check(alloc, &case).context("plainly")?;
    }
    Ok(())
}
