// A run of three dumps over stores that fail at each call in turn.

ghost use Rattle.std.specs.Prelude.{◌<◌};

use super::program::{Inputs, WHOLE, run_failing};
use example_kernels::PULL;
use std::sync::Wait;
use std::test::Fail;
use std::thread::Threads;
use top_call::{code, said_line};

const INPUTS: Inputs<'static> = Inputs {
    settings: "steps 2\n",
    kernel: PULL,
    particles: "particles 1\ncount 1\n5 10 0 0 65536 0 0 1 0 0 0 0\n",
};

const DUMPS: &str = "step 0 particles 1 ranks 1\n\
    rank 0 particles 1 groups 1 cells 0 parts 0 listcells 0 listparts 1\n\
    p 5 0 10 0 0 65536 0 0 0 0 0 0 0 0\n\
    step 1 particles 1 ranks 1\n\
    rank 0 particles 1 groups 1 cells 0 parts 0 listcells 0 listparts 1\n\
    p 5 0 11 0 0 65536 0 0 0 0 0 0 0 0\n\
    step 2 particles 1 ranks 1\n\
    rank 0 particles 1 groups 1 cells 0 parts 0 listcells 0 listparts 1\n\
    p 5 0 12 0 0 65536 0 0 0 0 0 0 0 0\n";

// What is said where each call of the run fails, in order, and how many bytes of its dumps, which have 27 + 68 + 35
// each, are there: three inputs, the output, and the dumps.
const CALLS: [(&str, usize); 13] = [
    ("fdps: store: open failed\n", 0),
    ("fdps: store: read failed\n", 0),
    ("fdps: store: read failed\n", 0),
    ("fdps: store: open failed\n", 0),
    ("fdps: store: read failed\n", 0),
    ("fdps: store: read failed\n", 0),
    ("fdps: store: open failed\n", 0),
    ("fdps: store: read failed\n", 0),
    ("fdps: store: read failed\n", 0),
    ("fdps: store: create failed\n", 0),
    ("fdps: store: write failed\n", 0),
    ("fdps: store: write failed\n", 130),
    ("fdps: store: write failed\n", 260),
];

// The first call that, where it fails, doesn't end the run in a fault of the store, with its line and its dumps.
fn first_other(
    rt: &(impl Threads + Wait + Sync + AllocGlobal),
    calls: &[(&str, usize)],
) -> Result<Option<usize>, Fail> {
    for (place, (line, written)) in calls.iter().enumerate() {
        let ran = run_failing(rt, INPUTS, place as u64 + 1, WHOLE)?;
        let output = ran.store.contents("o").unwrap_or(b"");
        let is_there = DUMPS.as_bytes().get(..*written) == Some(output);
        if !is_there || code(&ran.status) != 6 || ran.store.said() != line.as_bytes() {
            return Ok(Some(place));
        }
    }
    Ok(None)
}

// Whether the run is done with all its dumps where no call has this number.
fn is_done_without(
    rt: &(impl Threads + Wait + Sync + AllocGlobal),
    number: u64,
    most: usize,
) -> Result<bool, Fail>
    requires { 0 < most }
{
    Ok(run_failing(rt, INPUTS, number, most)?.left(0, "", Some(DUMPS)))
}

#[test]
fn a_call_that_fails_is_named_and_ends_the_run(rt: HostRuntime) -> Result<(), Fail> {
    assert_eq!(rt; first_other(&rt, &CALLS)?, None);
    Ok(())
}

#[test]
fn there_are_no_other_calls(rt: HostRuntime) -> Result<(), Fail> {
    assert!(rt; is_done_without(&rt, 14, WHOLE)?);
    Ok(())
}

// By sevens, the deck is read in 5 calls, the kernel in 15 and the particles in 7, each with one more at its end, and
// each of the three dumps is written in 19. Each input is opened, and the output created.
const PIECES: u64 = 5 + 15 + 7 + 3 + 3 * 19 + 3 + 1;

// The first of so many calls that moves at most seven bytes and, where it fails, doesn't end the run in a fault of the
// store that its line names, after a part of the dumps.
fn first_unnamed(
    rt: &(impl Threads + Wait + Sync + AllocGlobal),
    calls: u64,
) -> Result<Option<u64>, Fail> {
    for number in 1..=calls {
        let ran = run_failing(rt, INPUTS, number, 7)?;
        let line = said_line(rt.alloc(), &ran.status)?;
        let output = ran.store.contents("o").unwrap_or(b"");
        let is_part = DUMPS.as_bytes().starts_with(output);
        if !is_part || code(&ran.status) != 6 || ran.store.said() != line.as_slice() {
            return Ok(Some(number));
        }
    }
    Ok(None)
}

#[test]
fn each_call_that_moves_a_piece_ends_the_run_where_it_fails(rt: HostRuntime) -> Result<(), Fail> {
    assert_eq!(rt; first_unnamed(&rt, PIECES)?, None);
    Ok(())
}

#[test]
fn there_are_no_other_calls_that_move_pieces(rt: HostRuntime) -> Result<(), Fail> {
    assert!(rt; is_done_without(&rt, PIECES + 1, 7)?);
    Ok(())
}
