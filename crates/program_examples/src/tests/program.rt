ghost use Rattle.std.specs.Prelude.{◌<◌, IfOk};
ghost use Rattle.command_frame.specs.Status.{HasRoom};

use pf_io::{Gate, MemFile, MemStore, Open};
use std::alloc::Global;
use std::sync::Wait;
use std::test::Fail;
use std::thread::Threads;
use top_call::{Status, code, fdps};

/// So many bytes hold each text of the examples.
pub(crate) const WHOLE: usize = 1 << 20;

/// The inputs of a run.
#[derive(Clone, Copy)]
pub(crate) struct Inputs<'a> {
    /// The lines of the deck after those that name its files.
    pub(crate) settings: &'a str,
    pub(crate) kernel: &'a str,
    /// The whole particle file.
    pub(crate) particles: &'a str,
}

/// How a command ended.
#[derive(Drop)]
pub(crate) struct Ran {
    pub(crate) status: Status,
    pub(crate) store: MemStore,
}

impl Ran {
    /// Whether it ended with this exit status, said this and left these dumps, or no file of them.
    pub(crate) fn left(&self, status: u8, said: &str, dumps: Option<&str>) -> bool {
        let is_written = match (self.store.contents("o"), dumps) {
            (Some(found), Some(wanted)) => found == wanted.as_bytes(),
            (None, None) => true,
            _ => false,
        };
        is_written && code(&self.status) == status && self.store.said() == said.as_bytes()
    }
}

/// What the command leaves of a store with the deck `d`, the kernel `k` and the particles `p`.
pub(crate) fn run(
    rt: &(impl Threads + Wait + Sync + AllocGlobal),
    command: &str,
    inputs: Inputs<'_>,
) -> Result<Ran, Fail> {
    run_by(rt, command, inputs, &Open)
}

/// The same, of a run that passes the gate.
pub(crate) fn run_by<G: Gate>(
    rt: &(impl Threads + Wait + Sync + AllocGlobal),
    command: &str,
    inputs: Inputs<'_>,
    gate: &G,
) -> Result<Ran, Fail> {
    let alloc = rt.alloc();
    let store = store_of(alloc, inputs, Vec::new(alloc), WHOLE)?;
    run_on(rt, command, store, gate)
}

/// The same, where the store's call of this number fails, and each of the others moves at most `most` bytes.
pub(crate) fn run_failing(
    rt: &(impl Threads + Wait + Sync + AllocGlobal),
    inputs: Inputs<'_>,
    number: u64,
    most: usize,
) -> Result<Ran, Fail>
    requires { 0 < most }
{
    let alloc = rt.alloc();
    let mut fails = Vec::new(alloc);
    fails.push(number)?;
    run_on(rt, "run d", store_of(alloc, inputs, fails, most)?, &Open)
}

fn run_on<G: Gate>(
    rt: &(impl Threads + Wait + Sync + AllocGlobal),
    command: &str,
    mut store: MemStore,
    gate: &G,
) -> Result<Ran, Fail>
    requires { HasRoom store.faults }
{
    let alloc = rt.alloc();
    let words: Vec<&str> = command.split(' ').collect(alloc)?;
    let status = fdps(rt, alloc, &words, &mut store, gate);
    Ok(Ran { status, store })
}

fn store_of(
    alloc: Global,
    inputs: Inputs<'_>,
    fails: Vec<u64>,
    most: usize,
) -> Result<MemStore, Fail>
    requires { 0 < most }
    ensures { IfOk result (λ store. HasRoom store.faults) }
{
    let settings = inputs.settings;
    let deck = format!(in alloc; "kernel k\nparticles p\nout o\n{settings}")?;
    let mut files = Vec::new(alloc);
    files.push(file(alloc, "d", deck.as_str())?)?;
    files.push(file(alloc, "k", inputs.kernel)?)?;
    files.push(file(alloc, "p", inputs.particles)?)?;
    Ok(MemStore::new(alloc, files, fails, most))
}

fn file(alloc: Global, name: &str, text: &str) -> Result<MemFile, Fail> {
    Ok(MemFile {
        name: Vec::from_slice(alloc, name.as_bytes())?,
        bytes: Vec::from_slice(alloc, text.as_bytes())?,
    })
}
