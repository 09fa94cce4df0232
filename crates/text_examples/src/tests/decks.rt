ghost use Rattle.std.specs.Prelude.{◌≤◌, ◌^◌, length};

use super::shown::text;
use deck_file::{Deck, DeckFault, print, read};
use std::alloc::{AllocError, Global};
use std::process::Abort;
use std::test::Fail;

/// Three files, and no more.
const FILES: &str = "kernel k\nparticles p\nout o\n";

fn deck(rt: &impl Abort, alloc: Global, text: &str) -> Result<Deck, DeckFault> {
    assert!(rt; text.len() <= 1 << 16);
    read(alloc, text.as_bytes())
}

// The values of the ten keys, or the first fault.
fn told(rt: &impl Abort, alloc: Global, text: &str) -> Result<String, AllocError> {
    match deck(rt, alloc, text) {
        Ok(deck) => shown(alloc, &deck),
        Err(fault) => format!(in alloc; "{fault:?}"),
    }
}

fn shown(alloc: Global, deck: &Deck) -> Result<String, AllocError> {
    let files = shown_files(alloc, deck)?;
    let (grid, theta) = (deck.grid, deck.theta);
    format!(in alloc;
        "{files} {}x{}x{} {}/{} {:?} group {} steps {} dt {} reuse {}",
        grid.nx,
        grid.ny,
        grid.nz,
        theta.a,
        theta.b,
        theta.edge,
        deck.group,
        deck.steps,
        deck.dt,
        deck.reuse
    )
}

fn shown_files(alloc: Global, deck: &Deck) -> Result<String, AllocError> {
    let kernel = text(deck.kernel.as_bytes());
    let particles = text(deck.particles.as_bytes());
    let out = text(deck.out.as_bytes());
    format!(in alloc; "{kernel} {particles} {out}")
}

// Each text, after this front, with what is told of it.
fn are_told(
    rt: &impl Abort,
    alloc: Global,
    front: &str,
    cases: &[(&str, &str)],
) -> Result<(), Fail> {
    for (text, wanted) in cases {
        let text = format!(in alloc; "{front}{text}")?;
        assert_eq!(rt;
            told(rt, alloc, text.as_str())?.as_str(),
            *wanted,
            "of {text}"
        );
    }
    Ok(())
}

const WHOLE: [(&str, &str); 2] = [
    (FILES, "k p o 1x1x1 1/2 Open group 64 steps 0 dt 1 reuse 1"),
    (
        "# a deck\n\n \t# of a run\r\nreuse 0004\r\n\tdt\t65536 \n steps 1000000\ngroup 65536\nbox open\n\
         theta 1024/0000000001\nout #o\nparticles ~\nkernel a/b\ngrid 4x4x04",
        "a/b ~ #o 4x4x4 1024/1 Open group 65536 steps 1000000 dt 65536 reuse 4",
    ),
];

#[test]
fn settings_have_defaults_and_stand_in_any_order_between_comments(
    rt: HostRuntime,
) -> Result<(), Fail> {
    are_told(&rt, rt.alloc(), "", &WHOLE)
}

const FAULTS: [(&str, &str); 17] = [
    ("colour red\n", "UnknownKey(1)"),
    ("kernel a\nkernel b\n", "Twice(2)"),
    ("theta 1/0\n", "Value(1)"),
    ("kernel k\nparticles p\n", "Missing(Out)"),
    ("", "Missing(Kernel)"),
    ("out o\n", "Missing(Kernel)"),
    ("out o\nkernel k", "Missing(Particles)"),
    ("# kernel k\n\n\nKernel k\n", "UnknownKey(4)"),
    ("kernel k\n\nkernel k l\n", "Twice(3)"),
    ("kernel\n", "Value(1)"),
    ("kernel k l\n", "Value(1)"),
    ("steps 1\nsteps\ncolour\n", "Twice(2)"),
    ("box round\nsteps 1\nsteps 1\n", "Value(1)"),
    ("box periodic\nreuse 2\n", "Missing(Kernel)"),
    ("kernel k\r\r\n", "Value(1)"),
    ("kernel é\n", "Value(1)"),
    ("kernel k\x7f\n", "Value(1)"),
];

#[test]
fn the_first_fault_of_the_lines_is_told(rt: HostRuntime) -> Result<(), Fail> {
    are_told(&rt, rt.alloc(), "", &FAULTS)
}

// Each as the fourth line.
fn are_refused(rt: &impl Abort, alloc: Global, lines: &[&str]) -> Result<(), Fail> {
    for line in lines {
        let text = format!(in alloc; "{FILES}{line}")?;
        assert_eq!(rt;
            told(rt, alloc, text.as_str())?.as_str(),
            "Value(4)",
            "of {line}"
        );
    }
    Ok(())
}

const VALUES: [&str; 27] = [
    "grid 1x1",
    "grid 1x1x1x1",
    "grid 0x1x1",
    "grid 65x1x1",
    "grid 4x4x5",
    "grid 1X1X1",
    "grid 1x 1x1",
    "grid xx",
    "theta 1",
    "theta 1/2/3",
    "theta 1025/1",
    "theta 1/1025",
    "theta /1",
    "theta -1/2",
    "group 0",
    "group 65537",
    "group +1",
    "group 00000000001",
    "group 18446744073709551617",
    "steps 1000001",
    "steps 1e3",
    "dt 0",
    "dt 65537",
    "reuse 0",
    "reuse 1025",
    "box Open",
    "box",
];

#[test]
fn values_past_their_form_are_refused(rt: HostRuntime) -> Result<(), Fail> {
    are_refused(&rt, rt.alloc(), &VALUES)
}

const PERIODIC: [(&str, &str); 2] = [
    ("box periodic\nreuse 4\n", "Reuse"),
    (
        "reuse 1\nbox periodic\n",
        "k p o 1x1x1 1/2 Periodic group 64 steps 0 dt 1 reuse 1",
    ),
];

#[test]
fn lists_are_not_kept_in_a_periodic_box(rt: HostRuntime) -> Result<(), Fail> {
    are_told(&rt, rt.alloc(), FILES, &PERIODIC)
}

// The deck with these lines after those of the files is printed as this.
fn is_printed_as(rt: &impl Abort, alloc: Global, lines: &str, wanted: &str) -> Result<(), Fail> {
    let text = format!(in alloc; "{FILES}{lines}")?;
    let deck = deck(rt, alloc, text.as_str())?;
    assert_eq!(rt;
        print(alloc, &deck)?.as_slice(),
        wanted.as_bytes(),
        "of {lines}"
    );
    Ok(())
}

#[test]
fn a_deck_is_printed_with_all_ten_keys(rt: HostRuntime) -> Result<(), Fail> {
    let open =
        "kernel k\nparticles p\nout o\ngrid 1x1x1\ntheta 0/1\ngroup 64\nsteps 0\ndt 1\nreuse 1\nbox open\n";
    is_printed_as(&rt, rt.alloc(), "theta 0/1\n", open)?;
    let periodic =
        "kernel k\nparticles p\nout o\ngrid 2x3x4\ntheta 1/2\ngroup 64\nsteps 10\ndt 7\nreuse 1\nbox periodic\n";
    let lines = "dt 007\nbox periodic\ngrid 02x3x4\nsteps 10\n";
    is_printed_as(&rt, rt.alloc(), lines, periodic)
}

// What is told of a deck whose kernel has this name.
fn told_of_name(rt: &impl Abort, alloc: Global, name: &str) -> Result<String, AllocError> {
    let text = format!(in alloc; "kernel {name}\nparticles p\nout o\n")?;
    told(rt, alloc, text.as_str())
}

#[test]
fn names_have_at_most_255_bytes(rt: HostRuntime) -> Result<(), Fail> {
    let most = "n".repeat(rt.alloc(), 255)?;
    let taken = told_of_name(&rt, rt.alloc(), most.as_str())?;
    let wanted = format!(in rt.alloc(); "{most} p o 1x1x1 1/2 Open group 64 steps 0 dt 1 reuse 1")?;
    assert_eq!(rt; taken.as_str(), wanted.as_str());
    let more = "n".repeat(rt.alloc(), 256)?;
    let refused = told_of_name(&rt, rt.alloc(), more.as_str())?;
    assert_eq!(rt; refused.as_str(), "Value(1)");
    Ok(())
}
