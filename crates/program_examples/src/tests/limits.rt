// Runs of many particles: lists as long as they may be together, and longer, particles at one place, and a lattice.

use super::program::{Inputs, Ran, run};
use example_kernels::PULL;
use std::alloc::Global;
use std::fmt::Write;
use std::sync::Wait;
use std::test::Fail;
use std::thread::Threads;

// So many particles in a row along x.
fn in_a_row(alloc: Global, count: u32) -> Result<String, Fail> {
    let mut text = String::new(alloc);
    writeln!(text, "particles 1\ncount {count}")?;
    for k in 0..count {
        writeln!(text, "{} {k} 0 0 0 0 0 1 0 0 0 0", k + 1)?;
    }
    Ok(text)
}

// The run of such a row, in which each particle is a group of its own, with every particle in its list.
fn run_of_row(rt: &(impl Threads + Wait + Sync + AllocGlobal), count: u32) -> Result<Ran, Fail> {
    let particles = in_a_row(rt.alloc(), count)?;
    let inputs = Inputs {
        settings: "theta 0/1\ngroup 1\n",
        kernel: PULL,
        particles: particles.as_str(),
    };
    run(rt, "run d", inputs)
}

// Particle k + 1 is pulled by the sum of 0 to 4095, less 4096 times k.
fn dump_of_row(alloc: Global) -> Result<String, Fail> {
    let mut dump = String::from_str(alloc, "step 0 particles 4096 ranks 1\n")?;
    dump.push_str(
        "rank 0 particles 4096 groups 4096 cells 0 parts 0 listcells 0 listparts 16777216\n",
    )?;
    let mut pull = 8_386_560i64;
    for k in 0..4096 {
        writeln!(dump, "p {} 0 {k} 0 0 0 0 0 0 0 0 {pull} 0 0", k + 1)?;
        pull = pull.wrapping_sub(4096);
    }
    Ok(dump)
}

fn row_is_pulled(rt: &(impl Threads + Wait + Sync + AllocGlobal)) -> Result<bool, Fail> {
    let dump = dump_of_row(rt.alloc())?;
    Ok(run_of_row(rt, 4096)?.left(0, "", Some(dump.as_str())))
}

fn longer_row_stops(rt: &(impl Threads + Wait + Sync + AllocGlobal)) -> Result<bool, Fail> {
    Ok(run_of_row(rt, 4097)?.left(5, "fdps: step 0: Lists 16785409\n", Some("")))
}

#[test]
fn lists_may_have_16777216_entries_together(rt: HostRuntime) -> Result<(), Fail> {
    assert!(rt; row_is_pulled(&rt)?);
    Ok(())
}

#[test]
fn more_entries_end_the_run_and_are_counted(rt: HostRuntime) -> Result<(), Fail> {
    assert!(rt; longer_row_stops(&rt)?);
    Ok(())
}

fn at_one_place(alloc: Global) -> Result<String, Fail> {
    let mut text = String::from_str(alloc, "particles 1\ncount 4096\n")?;
    for id in 1..4097 {
        writeln!(text, "{id} 9 9 9 0 0 0 1 0 0 0 0")?;
    }
    Ok(text)
}

fn dump_of_one_place(alloc: Global) -> Result<String, Fail> {
    let mut dump = String::from_str(alloc, "step 0 particles 4096 ranks 64\n")?;
    for rank in 0..63 {
        writeln!(
            dump,
            "rank {rank} particles 0 groups 0 cells 0 parts 0 listcells 0 listparts 0"
        )?;
    }
    dump.push_str("rank 63 particles 4096 groups 1 cells 0 parts 0 listcells 0 listparts 4096\n")?;
    for id in 1..4097 {
        writeln!(dump, "p {id} 63 9 9 9 0 0 0 0 0 0 0 0 0")?;
    }
    Ok(dump)
}

fn one_place_is_one_group(rt: &(impl Threads + Wait + Sync + AllocGlobal)) -> Result<bool, Fail> {
    let particles = at_one_place(rt.alloc())?;
    let dump = dump_of_one_place(rt.alloc())?;
    let inputs = Inputs {
        settings: "grid 64x1x1\ntheta 0/1\ngroup 1\n",
        kernel: PULL,
        particles: particles.as_str(),
    };
    Ok(run(rt, "run d", inputs)?.left(0, "", Some(dump.as_str())))
}

#[test]
fn particles_at_one_place_are_one_group_of_the_last_rank(rt: HostRuntime) -> Result<(), Fail> {
    assert!(rt; one_place_is_one_group(&rt)?);
    Ok(())
}
