use leapfrog::{MoveFault, drift, kick};
use pf_geom::{Edge, Point};
use pf_model::Body;
use std::alloc::Global;
use std::process::Abort;
use std::test::Fail;

/// A half kick by an acceleration, or a drift, over a time.
#[derive(Clone, Copy)]
enum Move {
    Kick([i64; 3], u32),
    Drift(u32, Edge),
}

fn moved(body: &mut Body, step: Move) -> Result<(), MoveFault> {
    match step {
        Move::Kick(acc, dt) => kick(body, acc, dt),
        Move::Drift(dt, edge) => drift(body, dt, edge),
    }
}

// A body on the x axis that moves along it.
fn on_the_x_axis(rt: &impl Abort, x: u32, vx: i64) -> Body {
    assert!(rt; x < 1 << 30 && vx.unsigned_abs() <= 1 << 47);
    Body {
        id: 1,
        at: Point { x, y: 0, z: 0 },
        vel: [vx, 0, 0],
        mass: 1,
        attr: [0; 8],
    }
}

// What a move answers, and the place and the velocity of the body then.
fn push_told(list: &mut String, answer: Result<(), MoveFault>, body: Body) -> Result<(), Fail> {
    let at = body.at;
    write!(
        list,
        "{answer:?} {} {} {} {:?}; ",
        at.x, at.y, at.z, body.vel
    )?;
    Ok(())
}

// What each of the moves answers, and the place and the velocity then.
fn told(rt: &impl Abort, alloc: Global, case: &Case) -> Result<String, Fail> {
    let mut body = on_the_x_axis(rt, case.0, case.1);
    let mut list = String::new(alloc);
    for step in case.2 {
        let answer = moved(&mut body, *step);
        push_told(&mut list, answer, body)?;
    }
    assert_eq!(rt; (body.id, body.mass, body.attr), (1, 1, [0; 8]));
    Ok(list)
}

/// The place and the velocity on the x axis, the moves, and what they come to.
type Case = (u32, i64, &'static [Move], &'static str);

fn are_told(rt: &impl Abort, alloc: Global, cases: &[Case]) -> Result<(), Fail> {
    for case in cases {
        let list = told(rt, alloc, case)?;
        assert_eq!(rt; list.as_str(), case.3);
    }
    Ok(())
}

const KICKS: [Case; 4] = [
    // two half kicks make a whole one
    (
        0,
        0,
        &[
            Move::Kick([24_000, 32_000, 0], 2),
            Move::Kick([24_000, 32_000, 0], 2),
        ],
        "Ok(()) 0 0 0 [24000, 32000, 0]; Ok(()) 0 0 0 [48000, 64000, 0]; ",
    ),
    // each drops its fraction toward zero
    (
        0,
        0,
        &[Move::Kick([-1, 1, -3], 1)],
        "Ok(()) 0 0 0 [0, 0, -1]; ",
    ),
    // the greatest velocity is kept and not passed
    (
        0,
        140_737_488_355_328,
        &[Move::Kick([1, 0, 0], 1), Move::Kick([24_000, 32_000, 0], 2)],
        "Ok(()) 0 0 0 [140737488355328, 0, 0]; Err(Overflow(X)) 0 0 0 [140737488355328, 0, 0]; ",
    ),
    // the first axis that is too fast is named
    (
        0,
        0,
        &[Move::Kick([0, i64::MIN, i64::MAX], 65_536)],
        "Err(Overflow(Y)) 0 0 0 [0, 0, 0]; ",
    ),
];

#[test]
fn half_kicks_drop_their_fraction_and_keep_the_greatest_velocity(
    rt: HostRuntime,
) -> Result<(), Fail> {
    are_told(&rt, rt.alloc(), &KICKS)
}

const DRIFTS: [Case; 6] = [
    // a slow body stays where it is
    (
        3,
        -24_000,
        &[Move::Drift(2, Edge::Open)],
        "Ok(()) 3 0 0 [-24000, 0, 0]; ",
    ),
    (
        10,
        196_608,
        &[Move::Drift(1, Edge::Open)],
        "Ok(()) 13 0 0 [196608, 0, 0]; ",
    ),
    (
        1_073_741_823,
        65_536,
        &[Move::Drift(1, Edge::Open)],
        "Err(Escaped(X)) 1073741823 0 0 [65536, 0, 0]; ",
    ),
    // it comes back at the other side
    (
        1_073_741_823,
        65_536,
        &[
            Move::Drift(1, Edge::Periodic),
            Move::Drift(1, Edge::Periodic),
            Move::Drift(1, Edge::Periodic),
        ],
        "Ok(()) 0 0 0 [65536, 0, 0]; Ok(()) 1 0 0 [65536, 0, 0]; Ok(()) 2 0 0 [65536, 0, 0]; ",
    ),
    // two boxes are too far
    (
        0,
        140_737_488_355_328,
        &[Move::Drift(1, Edge::Periodic)],
        "Err(Escaped(X)) 0 0 0 [140737488355328, 0, 0]; ",
    ),
    (
        0,
        -140_737_488_355_328,
        &[Move::Drift(1, Edge::Periodic)],
        "Err(Escaped(X)) 0 0 0 [-140737488355328, 0, 0]; ",
    ),
];

#[test]
fn bodies_escape_from_an_open_box_and_come_back_in_a_periodic_one(
    rt: HostRuntime,
) -> Result<(), Fail> {
    are_told(&rt, rt.alloc(), &DRIFTS)
}
