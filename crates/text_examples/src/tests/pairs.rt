use super::read;
use kern_meaning::{for_kernel, pair, slot};
use kern_types::{check, slots};
use pf_geom::point_at;
use pf_model::{Body, Item};
use std::alloc::Global;
use std::process::Abort;
use std::test::Fail;

/// A particle at rest, or a source: its place, its mass, and its attribute c0.
type Given = ([u32; 3], u32, i64);

fn body(rt: &impl Abort, given: &Given) -> Result<Body, Fail> {
    let ([x, y, z], mass, c0) = *given;
    assert!(rt; 0 < mass && mass < 1 << 31 && c0.unsigned_abs() <= 1 << 40);
    Ok(Body {
        id: 1,
        at: point_at(x, y, z).ok_or("no point")?,
        vel: [0; 3],
        mass,
        attr: [c0, 0, 0, 0, 0, 0, 0, 0],
    })
}

// What a kernel sees of one particle.
fn item(rt: &impl Abort, given: &Given) -> Result<Item, Fail> {
    let ([x, y, z], mass, c0) = *given;
    assert!(rt; 0 < mass && mass < 1 << 31 && c0.unsigned_abs() <= 1 << 40);
    Ok(Item {
        at: point_at(x, y, z).ok_or("no point")?,
        mass: u64::from(mass),
        attr: [c0, 0, 0, 0, 0, 0, 0, 0],
        count: 1,
    })
}

// The fault of the pair and its statement, if it has one, and what each slot then has.
fn told(rt: &impl Abort, alloc: Global, text: &str, i: &Body, j: &Item) -> Result<String, Fail> {
    let typed = check(alloc, read(rt, alloc, text)?)?;
    let mut scratch = for_kernel(alloc, &typed)?;
    let mut answer = match pair(&typed, i, j, &mut scratch) {
        Ok(()) => String::new(alloc),
        Err(fault) => format!(in alloc; "{:?} {}: ", fault.kind, fault.statement)?,
    };
    for n in 0..slots(&typed) {
        write!(answer, "{:?} ", slot(&scratch, n))?;
    }
    Ok(answer)
}

// A kernel, who takes, who gives, and what is told.
fn are_told(
    rt: &impl Abort,
    alloc: Global,
    cases: &[(&str, Given, Given, &str)],
) -> Result<(), Fail> {
    for (kernel, i, j, wanted) in cases {
        let (i, j) = (body(rt, i)?, item(rt, j)?);
        assert_eq!(rt;
            told(rt, alloc, kernel, &i, &j)?.as_str(),
            *wanted,
            "of {kernel}"
        );
    }
    Ok(())
}

/// A particle of mass 1 at the origin.
const LIGHT: Given = ([0, 0, 0], 1, 0);

/// One at distance 5 of it.
const NEAR: Given = ([3, 4, 0], 1, 0);

/// One in the opposite corner.
const FAR: Given = ([1_073_741_823, 1_073_741_823, 1_073_741_823], 1, 0);

const FORCES: [(&str, Given, Given, &str); 3] = [
    (example_kernels::PULL, LIGHT, NEAR, "Some([3, 4, 0]) "),
    (
        example_kernels::FARTHEST,
        LIGHT,
        NEAR,
        "Some([24000, 32000, 0]) Some([25, 0, 0]) ",
    ),
    (
        example_kernels::FARTHEST,
        LIGHT,
        FAR,
        "Some([0, 0, 0]) Some([3458764507378089987, 0, 0]) ",
    ),
];

#[test]
fn each_slot_has_what_its_statement_gave(rt: HostRuntime) -> Result<(), Fail> {
    are_told(&rt, rt.alloc(), &FORCES)
}

/// A particle elsewhere.
const HERE: Given = ([10, 10, 10], 1, 0);

const COINCIDENT: [(&str, Given, Given, &str); 3] = [
    (
        example_kernels::FARTHEST,
        HERE,
        HERE,
        "Coincident 4: None None ",
    ),
    (
        example_kernels::SOFT_GRAVITY,
        HERE,
        HERE,
        "Some([0, 0, 0]) ",
    ),
    (example_kernels::GUARDED_GRAVITY, HERE, HERE, "None "),
];

#[test]
fn a_divisor_0_at_one_place_is_coincident(rt: HostRuntime) -> Result<(), Fail> {
    are_told(&rt, rt.alloc(), &COINCIDENT)
}

/// A source of the least attribute.
const LEAST: Given = ([1, 1, 1], 1, -1_099_511_627_776);

const BLOCKS: [(&str, Given, Given, &str); 2] = [
    (
        example_kernels::GREAT_SUM,
        ([0, 0, 0], 9, 0),
        LEAST,
        "Some([-4611686018427387904, 0, 0]) ",
    ),
    (
        example_kernels::GREAT_SUM,
        ([0, 0, 0], 8, 0),
        LEAST,
        "None ",
    ),
];

#[test]
fn an_untaken_block_gives_nothing(rt: HostRuntime) -> Result<(), Fail> {
    are_told(&rt, rt.alloc(), &BLOCKS)
}

/// A kernel of the masses alone, but for its statements.
const MASSES: &str = "\
EPI num S0 mi : mass;
EPJ num S0 mj : mass;
FORCE vec S16 acc sum;
FORCE num S0 n sum;
";

// What is told of the statements between masses 4 and 5.
fn are_counted(rt: &impl Abort, alloc: Global, cases: &[(&str, &str)]) -> Result<(), Fail> {
    let i = body(rt, &([0, 0, 0], 4, 0))?;
    let j = item(rt, &([1, 1, 1], 5, 0))?;
    for (statements, wanted) in cases {
        let text = format!(in alloc; "{MASSES}{statements}")?;
        assert_eq!(rt;
            told(rt, alloc, text.as_str(), &i, &j)?.as_str(),
            *wanted,
            "of {text}"
        );
    }
    Ok(())
}

const RANGES: [(&str, &str); 10] = [
    ("n += 1 / (mj - 5);", "ZeroDivisor 1: None "),
    ("n += 1 / (mi - 5);", "Some([-1, 0, 0]) "),
    ("n += isqrt(0 - mj);", "NegativeRoot 1: None "),
    ("n += mj * 9223372036854775807;", "Overflow 1: None "),
    (
        "n += (mj - mi) * 9223372036854775807;",
        "Some([9223372036854775807, 0, 0]) ",
    ),
    // the quotient alone is an i64
    (
        "n += muldiv(9223372036854775807, 4, 8);",
        "Some([4611686018427387903, 0, 0]) ",
    ),
    // one component alone
    (
        "acc += vec(1 S16, 2 S16, 9223372036854775807 S16) + vec(0 S16, 0 S16, 1 S16);",
        "Overflow 1: None ",
    ),
    // a lower scale drops the fraction
    ("n += to(0, -(3 S1));", "Some([-1, 0, 0]) "),
    ("n += to(0, 3 S1);", "Some([1, 0, 0]) "),
    // the first operand with a fault decides
    ("n += isqrt(0 - 1) + 1 / 0;", "NegativeRoot 1: None "),
];

#[test]
fn quotients_roots_and_products_have_their_ranges(rt: HostRuntime) -> Result<(), Fail> {
    are_counted(&rt, rt.alloc(), &RANGES)
}

const PATHS: [(&str, &str); 8] = [
    ("if 1 > 2 && 1 / 0 > 0 { n += 1; }", "None "),
    ("if 1 < 2 || 1 / 0 > 0 { n += 1; }", "Some([1, 0, 0]) "),
    ("if 1 < 2 && 1 / 0 > 0 { n += 1; }", "ZeroDivisor 1: None "),
    ("if 1 > 2 || 1 / 0 > 0 { n += 1; }", "ZeroDivisor 1: None "),
    (
        "if 1 < 2 { n += 7; } else { n += 1 / 0; }",
        "Some([7, 0, 0]) None ",
    ),
    ("if 1 > 2 { n += 1 / 0; } else { w = 1; }", "None "),
    // statements count in text order, with each `if`
    (
        "u = 1; if u == 1 { n += 1; w = 1 / 0; }",
        "ZeroDivisor 4: None ",
    ),
    (
        "n += 1; if 1 > 2 { u = 1; v = 2; } else { w = 1 / 0; }",
        "ZeroDivisor 5: None ",
    ),
];

#[test]
fn operands_and_blocks_that_are_not_needed_have_no_fault(rt: HostRuntime) -> Result<(), Fail> {
    are_counted(&rt, rt.alloc(), &PATHS)
}
