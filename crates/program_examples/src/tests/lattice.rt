// A full lattice at a large opening angle, where cells are opened down to the one that holds a particle.

use super::program::{Inputs, run};
use std::alloc::{AllocError, Global};
use std::fmt::Write;
use std::sync::Wait;
use std::test::Fail;
use std::thread::Threads;

// How many particles there are, by the counts of the entries of the lists.
const COUNT: &str = "\
EPJ num S0 n : count;
FORCE vec S16 acc sum;
FORCE num S0 seen sum;
seen += n;
";

// Appends a line for each particle: what stands before its id, between that and its place, and after that.
fn push_lattice(
    text: &mut String,
    before: &str,
    between: &str,
    after: &str,
) -> Result<(), AllocError> {
    for k in 0..65_536u32 {
        let id = k + 1;
        let x = k % 64 * 16_777_216 + 8_388_608;
        let y = k / 64 % 32 * 33_554_432 + 16_777_216;
        let z = k / 2_048 * 33_554_432 + 16_777_216;
        writeln!(text, "{before}{id}{between}{x} {y} {z}{after}")?;
    }
    Ok(())
}

fn particles(alloc: Global) -> Result<String, AllocError> {
    let mut text = String::from_str(alloc, "particles 1\ncount 65536\n")?;
    push_lattice(&mut text, "", " ", " 0 0 0 1 0 0 0 0")?;
    Ok(text)
}

// The lists have seven cells at each of the levels 1 to 5, one at level 6, and the particle itself.
fn dumps(alloc: Global) -> Result<String, AllocError> {
    let mut text = String::new(alloc);
    for step in 0..4 {
        writeln!(text, "step {step} particles 65536 ranks 1")?;
        text.push_str(
            "rank 0 particles 65536 groups 65536 cells 0 parts 0 listcells 2359296 listparts 65536\n",
        )?;
        push_lattice(&mut text, "p ", " 0 ", " 0 0 0 0 0 0 65535")?;
    }
    Ok(text)
}

fn each_sees_all(rt: &(impl Threads + Wait + Sync + AllocGlobal)) -> Result<bool, Fail> {
    let particles = particles(rt.alloc())?;
    let dumps = dumps(rt.alloc())?;
    let inputs = Inputs {
        settings: "theta 1024/1\ngroup 1\nsteps 3\n",
        kernel: COUNT,
        particles: particles.as_str(),
    };
    Ok(run(rt, "run d", inputs)?.left(0, "", Some(dumps.as_str())))
}

#[test]
fn each_particle_of_a_full_lattice_sees_all_others_by_few_cells(
    rt: HostRuntime,
) -> Result<(), Fail> {
    assert!(rt; each_sees_all(&rt)?);
    Ok(())
}
