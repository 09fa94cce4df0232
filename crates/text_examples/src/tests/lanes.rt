ghost use Rattle.std.specs.Prelude.{◌≡◌, ◌+◌, ◌≤◌, length, unsigned_abs};

use super::read;
use kern_types::{check, forces};
use lane_code::{Code, Instr, Instructions, Lane, RawCode, Relation, validate};
use lane_codegen::compile;
use lane_machine::{Machine, Sums};
use pf_geom::{Axis, Point};
use pf_model::{Body, Field, Item};
use std::alloc::{AllocError, Global};
use std::process::Abort;
use std::test::Fail;

const SUM_OF_NUMBERS: &str = "\
EPJ num S0 mj : mass;
FORCE vec S16 acc sum;
FORCE num S0 n sum;
n += mj;
";

// The components of a name go into others of the same name, and a divisor may be 0 where it isn't needed.
const TURNED: &str = "\
EPI vec S0 xi : pos;
EPJ vec S0 xj : pos;
EPJ num S0 mj : mass;
FORCE vec S16 acc sum;
FORCE vec S0 turned sum;
FORCE num S0 counted sum;
d = xj - xi;
d = vec(d.y, d.x, d.z);
turned += d;
if mj < 3 || 6 / (mj - 3) > 2 { counted += 1; }
";

// Twice the attribute c0 where that is positive. Its register is read in all lanes, and holds 0 in the others.
const UNDER_A_MASK: [Instr; 5] = [
    Instr {
        under: 0,
        out: 0,
        act: Lane::LoadJ(Field::C0, Axis::X),
    },
    Instr {
        under: 0,
        out: 1,
        act: Lane::Const(0),
    },
    Instr {
        under: 0,
        out: 1,
        act: Lane::Compare(Relation::Gt, 0, 1),
    },
    Instr {
        under: 1,
        out: 2,
        act: Lane::Add(0, 0),
    },
    Instr {
        under: 0,
        out: 0,
        act: Lane::Give(0, Axis::X, 2),
    },
];

// 1 over the attribute c0.
const OVER_ATTRIBUTE: [Instr; 4] = [
    Instr {
        under: 0,
        out: 0,
        act: Lane::LoadJ(Field::C0, Axis::X),
    },
    Instr {
        under: 0,
        out: 1,
        act: Lane::Const(1),
    },
    Instr {
        under: 0,
        out: 2,
        act: Lane::Div(1, 0),
    },
    Instr {
        under: 0,
        out: 0,
        act: Lane::Give(0, Axis::X, 2),
    },
];

fn code(rt: &impl Abort, alloc: Global, instrs: &[Instr]) -> Result<Code, AllocError> {
    let steps = Instructions::from_vec(instrs.to_vec(alloc)?);
    assert!(rt; steps.as_slice().len() < 100);
    let raw = RawCode {
        numbers: 3,
        masks: 2,
        slots: 1,
        steps,
    };
    Ok(validate(raw).ok().expect(rt, "a valid code"))
}

// So many items of attribute c0 1, and then -1 from the 65th on.
fn items(alloc: Global, count: usize) -> Result<Vec<Item>, AllocError> {
    let mut items = Vec::new(alloc);
    for k in 0..count {
        items.push(item(if k < 64 { 1 } else { -1 }))?;
    }
    Ok(items)
}

fn item(c0: i64) -> Item
    requires { unsigned_abs c0 ≤ 1 }
{
    Item {
        at: Point { x: 0, y: 0, z: 0 },
        mass: 1,
        attr: [c0, 0, 0, 0, 0, 0, 0, 0],
        count: 1,
    }
}

fn body() -> Body {
    Body {
        id: 1,
        at: Point { x: 0, y: 0, z: 0 },
        vel: [0; 3],
        mass: 1,
        attr: [0; 8],
    }
}

// Whether no lane of these items faults. The sums keep their variables, also where one does.
fn ran(machine: &mut Machine, list: &[Item], sums: &mut Sums) -> bool
    requires { sums.old.items + length list.now ≤ 65536 }
    ensures variables { length sums.new.totals ≡ length sums.old.totals }
    ensures items { sums.new.items ≤ sums.old.items + length list.now }
{
    match machine.run(&body(), list, sums) {
        Ok(()) => true,
        Err(_) => false,
    }
}

// The instructions give this over so many items.
fn is_sum(
    rt: &impl Abort,
    alloc: Global,
    instrs: &[Instr],
    count: usize,
    sum: i64,
) -> Result<(), Fail> {
    let t = check(alloc, read(rt, alloc, SUM_OF_NUMBERS)?)?;
    assert_eq!(rt; forces(&t).len(), 2);
    let mut sums = Sums::of(alloc, &t)?;
    let mut machine = Machine::new(alloc, &code(rt, alloc, instrs)?)?;
    let list = items(alloc, count)?;
    assert!(rt; list.len() <= 65_536);
    assert!(rt;
        machine.run(&body(), &list, &mut sums).is_ok(),
        "of {count}"
    );
    assert_eq!(rt; sums.close(1, Axis::X).ok(), Some(sum), "of {count}");
    Ok(())
}

// A fault in the last of 66 items leaves the sum of the first 65.
fn is_kept(rt: &impl Abort, alloc: Global) -> Result<(), Fail> {
    let t = check(alloc, read(rt, alloc, SUM_OF_NUMBERS)?)?;
    assert_eq!(rt; forces(&t).len(), 2);
    let mut sums = Sums::of(alloc, &t)?;
    let mut machine = Machine::new(alloc, &code(rt, alloc, &OVER_ATTRIBUTE)?)?;
    let mut list = items(alloc, 65)?;
    assert!(rt; list.len() == 65);
    assert!(rt; ran(&mut machine, &list, &mut sums));
    list.push(item(0))?;
    assert!(rt; !ran(&mut machine, &list, &mut sums));
    assert_eq!(rt; sums.close(1, Axis::X).ok(), Some(63));
    Ok(())
}

#[test]
fn lanes_outside_of_a_mask_hold_0(rt: HostRuntime) -> Result<(), Fail> {
    let alloc = rt.alloc();
    for (count, sum) in [(0, 0), (1, 2), (63, 126), (64, 128), (65, 128), (129, 128)] {
        is_sum(&rt, alloc, &UNDER_A_MASK, count, sum)?;
    }
    Ok(())
}

#[test]
fn a_fault_leaves_the_sums(rt: HostRuntime) -> Result<(), Fail> {
    is_kept(&rt, rt.alloc())
}

fn of_mass(mass: u64) -> Item
    requires some { 1 ≤ mass }
    requires light { mass ≤ 7 }
{
    Item {
        at: Point { x: 3, y: 4, z: 5 },
        mass,
        attr: [0; 8],
        count: 1,
    }
}

// A mass of 1 counts before the division, 5 by its quotient 3, and 7 doesn't; 3 is a fault.
fn are_turned(rt: &impl Abort, alloc: Global) -> Result<(), Fail> {
    let t = check(alloc, read(rt, alloc, TURNED)?)?;
    assert_eq!(rt; forces(&t).len(), 3);
    let mut sums = Sums::of(alloc, &t)?;
    let mut machine = Machine::new(alloc, &compile(alloc, &t)?)?;
    let list = [of_mass(1), of_mass(5), of_mass(7)];
    assert!(rt; ran(&mut machine, &list, &mut sums));
    assert!(rt; !ran(&mut machine, &[of_mass(3)], &mut sums));
    assert_eq!(rt; sums.close(1, Axis::X).ok(), Some(12));
    assert_eq!(rt; sums.close(1, Axis::Y).ok(), Some(9));
    assert_eq!(rt; sums.close(1, Axis::Z).ok(), Some(15));
    assert_eq!(rt; sums.close(2, Axis::X).ok(), Some(2));
    Ok(())
}

#[test]
fn a_compiled_kernel_gives_what_its_pairs_give(rt: HostRuntime) -> Result<(), Fail> {
    are_turned(&rt, rt.alloc())
}

// A register that no instruction wrote is not read.
#[test]
fn an_unwritten_register_breaks_a_rule(rt: HostRuntime) -> Result<(), Fail> {
    let alloc = rt.alloc();
    let sum = Instr {
        under: 0,
        out: 0,
        act: Lane::Add(0, 1),
    };
    let steps = Instructions::from_vec([sum].to_vec(alloc)?);
    assert!(rt; steps.as_slice().len() == 1);
    let raw = RawCode {
        numbers: 2,
        masks: 1,
        slots: 0,
        steps,
    };
    assert!(rt; matches!(validate(raw), Err(bad) if bad.0 == 0));
    Ok(())
}
