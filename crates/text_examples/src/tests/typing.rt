use super::read;
use super::shown::text_of;
use kern_types::{ForceVar, Typed, check, forces, kernel, slots, targets};
use std::alloc::{AllocError, Global};
use std::process::Abort;
use std::test::Fail;

// The number of declarations of a typed kernel, its forces, and the target of each contribution; or
// the first fault of types.
fn told(rt: &impl Abort, alloc: Global, text: &str) -> Result<String, Fail> {
    let parsed = read(rt, alloc, text)?;
    match check(alloc, parsed) {
        Ok(typed) => Ok(shown(alloc, &typed)?),
        Err(fault) => Ok(format!(in alloc; "{fault:?}")?),
    }
}

fn shown(alloc: Global, typed: &Typed) -> Result<String, AllocError> {
    let decls = kernel(typed).decls.as_slice().len();
    let forces = shown_forces(alloc, forces(typed))?;
    let targets = shown_targets(alloc, typed)?;
    format!(in alloc; "{decls} declarations; {forces}{}: {targets}", slots(typed))
}

fn shown_forces(alloc: Global, forces: &[ForceVar]) -> Result<String, AllocError> {
    let mut list = String::new(alloc);
    for force in forces {
        let name = text_of(&force.name);
        let shown = format!(in alloc;
            "{name} {:?} {} {:?}; ",
            force.kind, force.scale, force.combine
        )?;
        list.push_str(shown.as_str())?;
    }
    Ok(list)
}

fn shown_targets(alloc: Global, typed: &Typed) -> Result<String, AllocError> {
    let mut list = String::new(alloc);
    for name in targets(alloc, typed)?.as_slice() {
        list.push_str(text_of(name))?;
        list.push_str(" ")?;
    }
    Ok(list)
}

// Each text, after this front, with what is told of it.
fn are_told(
    rt: &impl Abort,
    alloc: Global,
    front: &str,
    cases: &[(&str, &str)],
) -> Result<(), Fail> {
    for (text, wanted) in cases {
        let text = format!(in alloc; "{front}{text}")?;
        assert_eq!(rt;
            told(rt, alloc, text.as_str())?.as_str(),
            *wanted,
            "of {text}"
        );
    }
    Ok(())
}

const IN_BLOCKS: &str = "\
EPI num S0 mi : mass;
FORCE vec S16 acc sum;
FORCE num S0 n sum;
FORCE num S0 top max;
if mi == 9 {
  top += mi;
} else {
  n += mi;
}
top += 1;
";

const TYPED: [(&str, &str); 3] = [
    (
        example_kernels::FARTHEST,
        "6 declarations; acc Vec3 16 Sum; top Num 0 Max; 2: acc top ",
    ),
    // a contribution in a block is one
    (
        example_kernels::GREAT_SUM,
        "4 declarations; acc Vec3 16 Sum; n Num 22 Sum; 1: n ",
    ),
    (
        IN_BLOCKS,
        "4 declarations; acc Vec3 16 Sum; n Num 0 Sum; top Num 0 Max; 3: top n top ",
    ),
];

#[test]
fn a_typed_kernel_tells_its_forces_and_contributions_in_text_order(
    rt: HostRuntime,
) -> Result<(), Fail> {
    are_told(&rt, rt.alloc(), "", &TYPED)
}

const NO_ACC: [(&str, &str); 2] = [("", "NoAcc(0)"), ("d = 1;", "NoAcc(0)")];

#[test]
fn a_kernel_needs_acc(rt: HostRuntime) -> Result<(), Fail> {
    are_told(&rt, rt.alloc(), "", &NO_ACC)
}

/// The line that declares the acceleration; what follows it begins at 23.
const ACC: &str = "FORCE vec S16 acc sum;\n";

const AFTER_ACC: [(&str, &str); 6] = [
    ("d = q;", "Unknown(27)"),
    ("EPI num S0 acc : mass;", "Twice(23)"),
    ("acc += 1;", "Kind(23)"),
    ("n = 1 S4 + 1;", "Scale(32)"),
    // on every path
    ("if 1 < 2 { u = 1; } w = u;", "Unassigned(47)"),
    (
        "if 1 < 2 { u = 1; } else { u = 2; } w = u;",
        "1 declarations; acc Vec3 16 Sum; 0: ",
    ),
];

#[test]
fn names_are_declared_and_assigned_before_their_use_and_kinds_and_scales_agree(
    rt: HostRuntime,
) -> Result<(), Fail> {
    are_told(&rt, rt.alloc(), ACC, &AFTER_ACC)
}

#[test]
fn a_fault_is_shown_with_its_place(rt: HostRuntime) -> Result<(), Fail> {
    let shown = format!(in rt.alloc(); "{}", kern_types::TypeFault::Scale(32))?;
    assert_eq!(rt; shown.as_str(), "Scale at 32");
    Ok(())
}
