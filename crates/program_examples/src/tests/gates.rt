// The gates `Open`, through its trait, and `Meet`: two threads meet, and two calls of one thread don't.

use pf_io::{Gate, Meet, Open, Phase};
use std::thread;
use std::thread::Threads;

fn is_passed_by<G: Gate>(gate: &G) -> bool {
    gate.pass(0, Phase::Leave);
    true
}

// Workers 0 and 1 pass, each in a thread.
fn passed_by_two<G: Gate>(rt: &(impl Threads + Sync), gate: &G, phase: Phase) {
    thread::join(rt, || gate.pass(0, phase), || gate.pass(1, phase));
}

// Whether two threads meet in the gate's phase.
fn two_meet(rt: &(impl Threads + Sync), phase: Phase) -> bool {
    let gate = Meet::meet_in(phase);
    passed_by_two(rt, &gate, phase);
    gate.met()
}

// Whether they do so in another phase, where worker 2 alone comes in that of the gate.
fn others_meet(rt: &(impl Threads + Sync), phase: Phase, other: Phase) -> bool {
    let gate = Meet::meet_in(phase);
    passed_by_two(rt, &gate, other);
    gate.pass(2, phase);
    gate.met()
}

// Whether the gate has ever let two calls of one thread meet: before the first, between them, or after both.
fn one_meets(phase: Phase) -> bool {
    let gate = Meet::meet_in(phase);
    let before = gate.met();
    gate.pass(0, phase);
    let between = gate.met();
    gate.pass(1, phase);
    before || between || gate.met()
}

#[test]
fn the_open_gate_holds_nobody(rt: HostRuntime) {
    assert!(rt; is_passed_by(&Open));
}

#[test]
fn two_calls_of_one_thread_do_not_meet(rt: HostRuntime) {
    assert!(rt; !one_meets(Phase::Trees));
}

#[test]
fn two_threads_meet_in_the_phase(rt: HostRuntime) {
    assert!(rt; two_meet(&rt, Phase::Settle));
}

#[test]
fn other_phases_and_workers_are_not_held(rt: HostRuntime) {
    assert!(rt; !others_meet(&rt, Phase::Forces, Phase::Gather));
}
