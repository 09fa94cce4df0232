// Two workers meet in each phase of a step, and its dump is that of one.

use super::program::{Inputs, run_by};
use example_kernels::GRAVITY;
use pf_io::{Meet, Phase};
use std::sync::Wait;
use std::test::Fail;
use std::thread::Threads;

const INPUTS: Inputs<'static> = Inputs {
    settings: "theta 0/1\ngrid 2x1x1\n",
    kernel: GRAVITY,
    particles: "particles 1\ncount 2\n1 0 0 0 0 0 0 1 0 0 0 0\n2 3 4 0 0 0 0 1 0 0 0 0\n",
};

const DUMP: &str = "step 0 particles 2 ranks 2\n\
    rank 0 particles 1 groups 1 cells 0 parts 1 listcells 0 listparts 2\n\
    rank 1 particles 1 groups 1 cells 0 parts 1 listcells 0 listparts 2\n\
    p 1 0 0 0 0 0 0 0 24000 32000 0\n\
    p 2 1 3 4 0 0 0 0 -24000 -32000 0\n";

const PHASES: [Phase; 5] = [
    Phase::Leave,
    Phase::Settle,
    Phase::Trees,
    Phase::Gather,
    Phase::Forces,
];

// The first of these phases in which two workers don't meet, or after which the dump is another.
fn first_missed(
    rt: &(impl Threads + Wait + Sync + AllocGlobal),
    phases: &[Phase],
) -> Result<Option<Phase>, Fail> {
    for phase in phases {
        let gate = Meet::meet_in(*phase);
        let ran = run_by(rt, "run d --workers 2", INPUTS, &gate)?;
        if !gate.met() || !ran.left(0, "", Some(DUMP)) {
            return Ok(Some(*phase));
        }
    }
    Ok(None)
}

#[test]
fn two_workers_meet_in_each_phase(rt: HostRuntime) -> Result<(), Fail> {
    assert_eq!(rt; first_missed(&rt, &PHASES)?, None);
    Ok(())
}
