ghost use Rattle.std.specs.Prelude.{◌≡◌, ◌++◌, ◌∷◌, [], ℤ, pos, None, Some, OnOk, IfOk, IfErr, map, drop, take};
ghost use Rattle.std.specs.Prelude.{slice_index_or, option_map};
ghost use Rattle.run_model.specs.declared.fault.What.TheVariants.{Escaped};
ghost use Rattle.run_model.specs.Force.{first_given};
ghost use Rattle.run_model.specs.Leapfrog.{along_axes, after_drift, escape_axis};
ghost use Rattle.run_model.specs.Run as rules;
ghost use Rattle.run_model.specs.Setup.{Setup};
ghost use Rattle.run_model.specs.Answers.{StopsAt, of_phase};
ghost use Rattle.run_moves.specs.Moves.{MovesBy, what_of};

use crate::forced::Forced;
use crate::motion::Motion;
use leapfrog::{MoveFault, drift, kick};
use pf_model::Body;
use run_model::{Fault, PhaseFault, What};
use std::alloc::{AllocError, Global};

/// The particles after the first half kick and the drift, or the first fault by id.
pub fn moved(alloc: Global, m: Motion, bodies: &[Forced]) -> Result<Vec<Body>, PhaseFault>
    ensures moved { (u : Setup) → MovesBy m u → IfOk result (λ now. now.items ≡ map (rules.moved_body u) bodies.now) }
    ensures no_fault { (u : Setup) → MovesBy m u → OnOk result (first_given (rules.move_fault u) bodies.now ≡ None) }
    ensures fault { (u : Setup) → MovesBy m u
        → IfErr result (λ fault. StopsAt (first_given (rules.move_fault u) bodies.now) (of_phase fault)) }
{
    let mut now = Vec::with_capacity(alloc, bodies.len())?;
    for forced in bodies {
        push(&mut now, moved_body(m, forced)?)?;
    }
    Ok(now)
}

fn push(bodies: &mut Vec<Body>, body: Body) -> Result<(), AllocError>
    ensures { OnOk result (bodies.new.items ≡ bodies.old.items ++ body ∷ []) }
{
    bodies.push(body)?;
    Ok(())
}

/// The second half kick of all particles, or the first fault by id.
pub fn kick_again(m: Motion, bodies: &mut [Forced]) -> Result<(), Fault>
    ensures kicked { (u : Setup) → MovesBy m u → OnOk result (bodies.new ≡ map (rules.kicked_again u) bodies.old) }
    ensures no_fault { (u : Setup) → MovesBy m u → OnOk result (first_given (rules.kick_fault u) bodies.old ≡ None) }
    ensures fault { (u : Setup) → MovesBy m u
        → IfErr result (λ f. first_given (rules.kick_fault u) bodies.old ≡ Some (rules.Numeric f)) }
{
    for forced in bodies.iter_mut() {
        kick_forced(m, forced)?;
    }
    Ok(())
}

fn moved_body(m: Motion, forced: &Forced) -> Result<Body, Fault>
    ensures moved { (u : Setup) → MovesBy m u → IfOk result (λ body. body ≡ rules.moved_body u forced.now) }
    ensures no_fault { (u : Setup) → MovesBy m u → OnOk result (rules.move_fault u forced.now ≡ None) }
    ensures fault { (u : Setup) → MovesBy m u
        → IfErr result (λ f. rules.move_fault u forced.now ≡ Some (rules.Numeric f)) }
{
    let mut body = kicked_body(m, forced)?;
    drift_body(m, &mut body)?;
    Ok(body)
}

fn kick_forced(m: Motion, forced: &mut Forced) -> Result<(), Fault>
    ensures kicked { (u : Setup) → MovesBy m u → OnOk result (forced.new ≡ rules.kicked_again u forced.old) }
    ensures no_fault { (u : Setup) → MovesBy m u → OnOk result (rules.kick_fault u forced.old ≡ None) }
    ensures fault { (u : Setup) → MovesBy m u
        → IfErr result (λ f. rules.kick_fault u forced.old ≡ Some (rules.Numeric f)) }
{
    forced.body = kicked_body(m, forced)?;
    Ok(())
}

fn kicked_body(m: Motion, forced: &Forced) -> Result<Body, Fault>
    ensures kicked { (u : Setup) → MovesBy m u → IfOk result (λ body. body ≡ rules.kicked_body u forced.now) }
    ensures no_fault { (u : Setup) → MovesBy m u → OnOk result (rules.kick_fault u forced.now ≡ None) }
    ensures fault { (u : Setup) → MovesBy m u
        → IfErr result (λ f. rules.kick_fault u forced.now ≡ Some (rules.Numeric f)) }
{
    kicked(m, forced.forces.as_slice(), forced.body)
}

// A particle after half a kick by the forces on it.
fn kicked(m: Motion, row: &[i64], body: Body) -> Result<Body, Fault>
    ensures kicked { (u : Setup) → MovesBy m u → IfOk result (λ after.
        after ≡ rules.kicked_body u (record { body = body; forces = row.now })) }
    ensures no_fault { (u : Setup) → MovesBy m u
        → OnOk result (rules.kick_fault u (record { body = body; forces = row.now }) ≡ None) }
    ensures fault { (u : Setup) → MovesBy m u → IfErr result (λ f.
        rules.kick_fault u (record { body = body; forces = row.now }) ≡ Some (rules.Numeric f)) }
{
    let mut after = body;
    match kick(&mut after, acceleration(m.acc_place, row), m.dt) {
        Ok(()) => Ok(after),
        Err(refused) => Err(fault_of(body.id, refused)),
    }
}

fn drift_body(m: Motion, body: &mut Body) -> Result<(), Fault>
    ensures drifted { (u : Setup) → MovesBy m u → OnOk result (body.new ≡ after_drift u.theta.edge u.dt body.old) }
    ensures no_fault { (u : Setup) → MovesBy m u → OnOk result (escape_axis u.theta.edge u.dt body.old ≡ None) }
    ensures fault { (u : Setup) → MovesBy m u → IfErr result (λ f.
        option_map (λ axis. rules.numeric body.old.id (Escaped axis)) (escape_axis u.theta.edge u.dt body.old)
        ≡ Some (rules.Numeric f)) }
{
    match drift(body, m.dt, m.edge) {
        Ok(()) => Ok(()),
        Err(refused) => Err(fault_of(body.id, refused)),
    }
}

fn fault_of(id: u32, refused: MoveFault) -> Fault
    ensures { result ≡ record { id = id; what = what_of refused } }
{
    match refused {
        MoveFault::Overflow(axis) => Fault {
            id,
            what: What::Fast(axis),
        },
        MoveFault::Escaped(axis) => Fault {
            id,
            what: What::Escaped(axis),
        },
    }
}

// The numbers of acc in a row.
fn acceleration(place: u32, row: &[i64]) -> [i64; 3]
    ensures { along_axes result ≡ along_axes (take 3 (drop place row.now)) }
{
    let place = place as usize;
    [
        number(row, place),
        number(row, place + 1),
        number(row, place + 2),
    ]
}

fn number(row: &[i64], place: usize) -> i64
    ensures { result ≡ slice_index_or row.now place (pos 0) }
{
    if place < row.len() { row[place] } else { 0 }
}
