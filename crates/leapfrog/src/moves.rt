ghost use Rattle.std.specs.Prelude.{◌≡◌, ◌^◌, ◌<◌, ◌≤◌, pos, ◌*ℤ◌, int_div, unsigned_abs, false, [], ◌∷◌, All, OnOk, OnErr, IfOk, IfErr, Some, None};
ghost use Rattle.pf_model.specs.Particle.{IsVelocity};
ghost use Rattle.run_model.specs.Leapfrog.{Triple, first_axis, kicked, is_fast, fast_axis, after_kick, drifted, drift_target, is_escape, coordinate_at, position_at, escape_axis, after_drift};
ghost use Rattle.leapfrog.specs.Refusal.{refusal};
ghost use Rattle.leapfrog.specs.declared.fault.MoveFault.TheVariants.{Overflow, Escaped};

use crate::fault::MoveFault;
use pf_geom::{Axis, Edge, Point};
use pf_model::Body;

// A velocity component, with 16 fraction bits, is at most this either way.
const MOST_VELOCITY: u128 = 1 << 47;

// The side of the cube.
const CUBE_SIDE: i128 = 1 << 30;

/// Half a kick: each velocity component gets half of what the acceleration gives in a step of `dt`,
/// toward zero. `Overflow` exactly where a component then passes 2^47, the first by axis; the body is
/// then as before.
pub fn kick(b: &mut Body, acc: [i64; 3], dt: u32) -> Result<(), MoveFault>
    ensures answer { result ≡ refusal Overflow (fast_axis dt acc b.old) }
    ensures kicked { OnOk result (b.new ≡ after_kick dt acc b.old) }
    ensures err { OnErr result (b.new ≡ b.old) }
{
    let v = b.vel;
    let moved = slow_velocity(
        kicked(v[0], acc[0], dt),
        kicked(v[1], acc[1], dt),
        kicked(v[2], acc[2], dt),
    );
    match moved {
        Ok(vel) => {
            b.vel = vel;
            Ok(())
        }
        Err(axis) => Err(MoveFault::Overflow(axis)),
    }
}

// What a velocity component becomes by the half kick.
fn kicked(v: i64, acc: i64, dt: u32) -> i128
    ensures { result ≡ kicked dt acc v }
{
    i128::from(v) + gain(acc, dt, 2)
}

// What a rate gives in a step of `dt`, over so many parts, toward zero.
fn gain(rate: i64, dt: u32, parts: u32) -> i128
    requires { 0 < parts }
    ensures value { result ≡ int_div (rate *ℤ pos dt) (pos parts) }
    ensures small { unsigned_abs result ≤ 2 ^ 95 }
{
    i128::from(rate) * i128::from(dt) / i128::from(parts)
}

fn is_fast(v: i128) -> bool
    ensures { result ≡ is_fast v }
{
    v.unsigned_abs() > MOST_VELOCITY
}

// The velocity, or the first axis on which it is too fast.
fn slow_velocity(x: i128, y: i128, z: i128) -> Result<[i64; 3], Axis>
    ensures ok { OnOk result (first_axis is_fast (record { x = x; y = y; z = z }) ≡ None) }
    ensures velocity { IfOk result (λ v. v ≡ x ∷ y ∷ z ∷ []) }
    ensures slow { IfOk result (All IsVelocity) }
    ensures err { IfErr result (λ axis. first_axis is_fast (record { x = x; y = y; z = z }) ≡ Some axis) }
{
    if is_fast(x) {
        Err(Axis::X)
    } else if is_fast(y) {
        Err(Axis::Y)
    } else if is_fast(z) {
        Err(Axis::Z)
    } else {
        Ok([x as i64, y as i64, z as i64])
    }
}

/// A drift: each coordinate gets what the velocity gives in a step of `dt`, toward zero, in a periodic
/// box modulo 2^30. `Escaped` exactly where a coordinate leaves the cube or, in a periodic box, the
/// cubes next to it, the first by axis; the body is then as before.
pub fn drift(b: &mut Body, dt: u32, edge: Edge) -> Result<(), MoveFault>
    ensures answer { result ≡ refusal Escaped (escape_axis edge dt b.old) }
    ensures drifted { OnOk result (b.new ≡ after_drift edge dt b.old) }
    ensures err { OnErr result (b.new ≡ b.old) }
{
    match drifted_point(edge, dt, b.vel, b.at) {
        Ok(at) => {
            b.at = at;
            Ok(())
        }
        Err(axis) => Err(MoveFault::Escaped(axis)),
    }
}

// Where a drift at this velocity takes a point, or the first axis on which it goes too far.
fn drifted_point(edge: Edge, dt: u32, v: [i64; 3], at: Point) -> Result<Point, Axis>
    ensures ok { OnOk result (first_axis (is_escape edge) (drift_target dt v at) ≡ None) }
    ensures point { IfOk result (λ p. p ≡ position_at edge (drift_target dt v at)) }
    ensures err { IfErr result (λ axis. first_axis (is_escape edge) (drift_target dt v at) ≡ Some axis) }
{
    point_at(
        edge,
        drifted(at.x, v[0], dt),
        drifted(at.y, v[1], dt),
        drifted(at.z, v[2], dt),
    )
}

// Where a drift takes a coordinate.
fn drifted(coordinate: u32, v: i64, dt: u32) -> i128
    ensures { result ≡ drifted dt v coordinate }
{
    i128::from(coordinate) + gain(v, dt, 1 << 16)
}

#[tactic(auto, unfolding(run_model::specs::Leapfrog::is_escape))]
fn is_escape(edge: Edge, target: i128) -> bool
    ensures { result ≡ is_escape edge target }
{
    match edge {
        Edge::Open => target < 0 || target > CUBE_SIDE - 1,
        Edge::Periodic => target < -CUBE_SIDE || target > 2 * CUBE_SIDE - 1,
    }
}

// The point that a drift to this target comes to, or the first axis on which it goes too far.
fn point_at(edge: Edge, x: i128, y: i128, z: i128) -> Result<Point, Axis>
    ensures ok { OnOk result (first_axis (is_escape edge) (record { x = x; y = y; z = z }) ≡ None) }
    ensures point { IfOk result (λ p. p ≡ position_at edge (record { x = x; y = y; z = z })) }
    ensures err { IfErr result (λ axis. first_axis (is_escape edge) (record { x = x; y = y; z = z }) ≡ Some axis) }
{
    if is_escape(edge, x) {
        Err(Axis::X)
    } else if is_escape(edge, y) {
        Err(Axis::Y)
    } else if is_escape(edge, z) {
        Err(Axis::Z)
    } else {
        Ok(Point {
            x: coordinate_at(edge, x),
            y: coordinate_at(edge, y),
            z: coordinate_at(edge, z),
        })
    }
}

// The coordinate that a target which is no escape comes to.
#[tactic(auto, unfolding(run_model::specs::Leapfrog::is_escape, run_model::specs::Leapfrog::coordinate_at))]
fn coordinate_at(edge: Edge, target: i128) -> u32
    requires { is_escape edge target ≡ false }
    ensures value { result ≡ coordinate_at edge target }
    ensures in_cube { result < 2 ^ 30 }
{
    match edge {
        Edge::Open => target as u32,
        Edge::Periodic => target.rem_euclid(CUBE_SIDE) as u32,
    }
}
