ghost use Rattle.std.specs.Prelude.{◌≡◌};
ghost use Rattle.lane_codegen.specs.Acts as rules;

use crate::place::Registers;
use kern_tree::{Kind, Op1, Op2, Op3};
use lane_code::{Lane, Relation};
use pf_geom::Axis;

/// What is done along x, y and z. For a num or a condition x alone counts.
#[derive(Clone, Copy, Debug, PartialEq, Eq)]
pub(crate) struct Acts {
    pub(crate) x: Lane,
    pub(crate) y: Lane,
    pub(crate) z: Lane,
}

/// The same along each axis.
pub(crate) fn alike(act: Lane) -> Acts
    ensures { result ≡ rules.alike act }
{
    Acts {
        x: act,
        y: act,
        z: act,
    }
}

/// The register along an axis.
pub(crate) fn along(axis: Axis, at: Registers) -> u32
    ensures { result ≡ rules.along axis at }
{
    match axis {
        Axis::X => at.x,
        Axis::Y => at.y,
        Axis::Z => at.z,
    }
}

/// The acts of `-a`, `isqrt(a)` and `abs(a)`.
pub(crate) fn one_acts(op: Op1, a: Registers) -> Acts
    ensures { result ≡ rules.one_acts op a }
{
    Acts {
        x: one_act(op, a.x),
        y: one_act(op, a.y),
        z: one_act(op, a.z),
    }
}

fn one_act(op: Op1, a: u32) -> Lane
    ensures { result ≡ rules.one_act op a }
{
    match op {
        Op1::Neg => Lane::Neg(a),
        Op1::Isqrt => Lane::Root(a),
        Op1::Abs => Lane::Abs(a),
        // It has no numbers.
        Op1::Not => Lane::Copy(a),
    }
}

/// The acts of an operator on two numbers. The product of two vecs is their inner product.
pub(crate) fn two_acts(op: Op2, left: Kind, a: Registers, right: Kind, b: Registers) -> Acts
    ensures { result ≡ rules.two_acts op left a right b }
{
    if is_inner(op, left, right) {
        alike(Lane::Dot(a.x, a.y, a.z, b.x, b.y, b.z))
    } else {
        both_acts(op, spread(left, a), spread(right, b))
    }
}

fn both_acts(op: Op2, a: Registers, b: Registers) -> Acts
    ensures { result ≡ rules.both_acts op a b }
{
    Acts {
        x: two_act(op, a.x, b.x),
        y: two_act(op, a.y, b.y),
        z: two_act(op, a.z, b.z),
    }
}

// A num stands in one register along each axis.
fn spread(kind: Kind, a: Registers) -> Registers
    ensures { result ≡ rules.spread kind a }
{
    match kind {
        Kind::Num => same_registers(a.x),
        Kind::Vec3 => a,
    }
}

/// One register along each axis.
pub(crate) fn same_registers(a: u32) -> Registers
    ensures { result ≡ rules.same_registers a }
{
    Registers { x: a, y: a, z: a }
}

fn is_inner(op: Op2, left: Kind, right: Kind) -> bool
    ensures { result ≡ rules.is_inner op left right }
{
    matches!((op, left, right), (Op2::Mul, Kind::Vec3, Kind::Vec3))
}

fn two_act(op: Op2, a: u32, b: u32) -> Lane
    ensures { result ≡ rules.two_act op a b }
{
    match op {
        Op2::Add => Lane::Add(a, b),
        Op2::Sub => Lane::Sub(a, b),
        Op2::Mul => Lane::Mul(a, b),
        Op2::Div => Lane::Div(a, b),
        Op2::Lt => Lane::Compare(Relation::Lt, a, b),
        Op2::Le => Lane::Compare(Relation::Le, a, b),
        Op2::Gt => Lane::Compare(Relation::Gt, a, b),
        Op2::Ge => Lane::Compare(Relation::Ge, a, b),
        Op2::Eq => Lane::Compare(Relation::Eq, a, b),
        Op2::Ne => Lane::Compare(Relation::Ne, a, b),
        Op2::Least => Lane::Least(a, b),
        Op2::Most => Lane::Most(a, b),
        // They have conditions.
        Op2::And | Op2::Or => Lane::Copy(a),
    }
}

/// The acts of `muldiv(a, b, c)`, and of `vec(a, b, c)`.
pub(crate) fn three_acts(op: Op3, a: Registers, b: Registers, c: Registers) -> Acts
    ensures { result ≡ rules.three_acts op a b c }
{
    match op {
        Op3::Muldiv => Acts {
            x: Lane::MulDiv(a.x, b.x, c.x),
            y: Lane::MulDiv(a.x, b.y, c.x),
            z: Lane::MulDiv(a.x, b.z, c.x),
        },
        Op3::Build => Acts {
            x: Lane::Copy(a.x),
            y: Lane::Copy(b.x),
            z: Lane::Copy(c.x),
        },
    }
}

// The most fraction bits.
const MOST: u32 = 62;

/// The acts of `to(to, a)`, where a has this scale.
pub(crate) fn to_acts(to: u32, scale: u32, a: Registers) -> Acts
    ensures { result ≡ rules.to_acts to scale a }
{
    Acts {
        x: to_act(to, scale, a.x),
        y: to_act(to, scale, a.y),
        z: to_act(to, scale, a.z),
    }
}

fn to_act(to: u32, scale: u32, a: u32) -> Lane
    ensures { result ≡ rules.to_act to scale a }
{
    if to > MOST || scale > MOST {
        Lane::Const(0)
    } else if scale <= to {
        Lane::Up(a, to - scale)
    } else {
        Lane::Down(a, scale - to)
    }
}

/// Copies of registers.
pub(crate) fn copies(a: Registers) -> Acts
    ensures { result ≡ rules.copies a }
{
    Acts {
        x: Lane::Copy(a.x),
        y: Lane::Copy(a.y),
        z: Lane::Copy(a.z),
    }
}
