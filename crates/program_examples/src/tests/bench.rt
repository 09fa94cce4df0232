// The benchmark: the summary that it says, on any number of workers.

use super::program::{Inputs, run};
use std::sync::Wait;
use std::test::Fail;
use std::thread::Threads;

// No benchmark reads these.
const INPUTS: Inputs<'static> = Inputs {
    settings: "",
    kernel: "",
    particles: "",
};

const OF_2000: &str = "bench particles 2000 seed 7\n\
    groups 75\n\
    listcells 39660\n\
    listparts 2000\n\
    bytes 675755\n\
    digest 17750477131325787669\n";

const OF_5000: &str = "bench particles 5000 seed 7\n\
    groups 497\n\
    listcells 273553\n\
    listparts 5000\n\
    bytes 1759921\n\
    digest 16200812578013737372\n";

// Whether the command is done, says the summary and writes nothing.
fn says(
    rt: &(impl Threads + Wait + Sync + AllocGlobal),
    command: &str,
    summary: &str,
) -> Result<bool, Fail> {
    Ok(run(rt, command, INPUTS)?.left(0, summary, None))
}

#[test]
fn one_worker_sums_up_2000_particles(rt: HostRuntime) -> Result<(), Fail> {
    assert!(rt; says(&rt, "bench 2000 7", OF_2000)?);
    Ok(())
}

#[test]
fn eight_workers_sum_up_2000_particles_as_one(rt: HostRuntime) -> Result<(), Fail> {
    assert!(rt; says(&rt, "bench 2000 7 --workers 8", OF_2000)?);
    Ok(())
}

#[test]
fn one_worker_sums_up_5000_particles(rt: HostRuntime) -> Result<(), Fail> {
    assert!(rt; says(&rt, "bench 5000 7", OF_5000)?);
    Ok(())
}

#[test]
fn eight_workers_sum_up_5000_particles_as_one(rt: HostRuntime) -> Result<(), Fail> {
    assert!(rt; says(&rt, "bench --workers=8 5000 7", OF_5000)?);
    Ok(())
}
