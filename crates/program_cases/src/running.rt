// Running a case, and comparing what it comes to with what it must.

ghost use Rattle.std.specs.Prelude.{◌<◌, IfOk};
ghost use Rattle.command_frame.specs.Status.{HasRoom};

use crate::case::{Case, Role};
use anyhow::{Context, Result, ensure};
use example_kernels::{
    FARTHEST, GRAVITY, GREAT_PRODUCT, GREAT_SUM, GUARDED_GRAVITY, OVER_MASS, OVER_OWN_MASS, PULL,
    ROOT_OF_MASS, SOFT_GRAVITY,
};
use pf_io::{MemFile, MemStore, Open};
use std::alloc::{AllocError, Global};
use std::sync::Wait;
use std::thread::Threads;
use top_call::{code, fdps};

/// The kernels that each case has as files, by their names.
pub(crate) const KERNELS: [(&str, &str); 10] = [
    ("pull", PULL),
    ("gravity", GRAVITY),
    ("soft_gravity", SOFT_GRAVITY),
    ("farthest", FARTHEST),
    ("guarded_gravity", GUARDED_GRAVITY),
    ("over_mass", OVER_MASS),
    ("over_own_mass", OVER_OWN_MASS),
    ("root_of_mass", ROOT_OF_MASS),
    ("great_product", GREAT_PRODUCT),
    ("great_sum", GREAT_SUM),
];

// So many bytes hold each text of the cases.
const WHOLE: usize = 1 << 20;

/// The error is the first difference between what the commands of the case come to and what they must.
pub(crate) fn check(rt: &(impl Threads + Wait + Sync), alloc: Global, case: &Case) -> Result<()> {
    for command in &case.commands(alloc)? {
        check_command(rt, alloc, case, command).context(format_args!("{command}"))?;
    }
    Ok(())
}

fn check_command(
    rt: &(impl Threads + Wait + Sync),
    alloc: Global,
    case: &Case,
    command: &str,
) -> Result<()> {
    let mut store = store_of(alloc, case)?;
    let words: Vec<&str> = command.split(' ').skip(1).collect(alloc)?;
    let status = code(&fdps(rt, alloc, &words, &mut store, &Open));
    let wanted = case.setting("status").unwrap_or("0").parse::<u8>()?;
    ensure!(status == wanted, "status {status}");
    same(
        "what is said",
        case.text(Role::Said, "").unwrap_or(""),
        store.said(),
    )?;
    check_files(case, &store)
}

// The files: as they must be, or as they were. The output of a case is called `o`.
fn check_files(case: &Case, store: &MemStore) -> Result<()> {
    for section in &case.sections {
        let name = section.name.as_str();
        let is_wanted = match section.role {
            Role::Given => case.text(Role::Wanted, name).is_none(),
            Role::Wanted => true,
            Role::Said => false,
        };
        if is_wanted {
            let found = store.contents(name).context("a file isn't there")?;
            same(name, section.text.as_str(), found)?;
        }
    }
    let is_named = case.text(Role::Wanted, "o").is_some() || case.text(Role::Given, "o").is_some();
    ensure!(is_named || store.contents("o").is_none(), "o is there");
    Ok(())
}

/// That a text is as it must be.
pub(crate) fn same(what: &str, wanted: &str, found: &[u8]) -> Result<()> {
    let found = std::str::from_utf8(found)?;
    let mut lines = wanted.lines();
    for line in found.lines() {
        ensure!(lines.next() == Some(line), "{what} has {line}");
    }
    ensure!(found == wanted, "{what} ends otherwise");
    Ok(())
}

// The files of the case and the kernels. The calls that the case names fail, and others move at most so many bytes.
fn store_of(alloc: Global, case: &Case) -> Result<MemStore>
    ensures { IfOk result (λ store. HasRoom store.faults) }
{
    let mut files = Vec::new(alloc);
    for section in &case.sections {
        if section.role == Role::Given {
            files.push(file(alloc, section.name.as_str(), section.text.as_str())?)?;
        }
    }
    for (name, text) in &KERNELS {
        files.push(file(alloc, name, text)?)?;
    }
    let mut fails = Vec::new(alloc);
    for number in case.setting("fails").unwrap_or("").split_whitespace() {
        fails.push(number.parse::<u64>()?)?;
    }
    let most = match case.setting("moves") {
        Some(count) => count.parse::<usize>()?,
        None => WHOLE,
    };
    ensure!(0 < most, "moves no bytes");
    Ok(MemStore::new(alloc, files, fails, most))
}

fn file(alloc: Global, name: &str, text: &str) -> Result<MemFile, AllocError> {
    Ok(MemFile {
        name: Vec::from_slice(alloc, name.as_bytes())?,
        bytes: Vec::from_slice(alloc, text.as_bytes())?,
    })
}
