ghost use Rattle.std.specs.Prelude.{◌≡◌};
ghost use Rattle.kern_meaning.specs.Operators as rules;

use crate::Stop;
use crate::Value::{self, Condition, Num, Vec3};
use crate::numbers::{muldiv_scale, num, product_scale, vec_of};
use kern_tree::{Op1, Op2, Op3};
use pf_geom::Axis;
use pf_num::{
    NumFault, checked_abs, checked_add, checked_div, checked_mul, checked_neg, checked_sub, dot,
    muldiv, rescale, root,
};

// The greatest number of fraction bits.
const MOST: u32 = 62;

#[tactic(auto, using(crate::proofs::Literals::literals))]
pub(crate) fn literal_value(mantissa: u64, scale: u32) -> Result<Value, Stop>
    ensures { result ≡ rules.literal_value mantissa scale }
{
    if mantissa <= i64::MAX as u64 {
        Ok(Num(mantissa as i64, scale))
    } else {
        Err(Stop::Fault(NumFault::Overflow))
    }
}

pub(crate) fn part_value(axis: Axis, a: Value) -> Result<Value, Stop>
    ensures { result ≡ rules.part_value axis a }
{
    let Vec3(a, s) = a else {
        return Err(Stop::NoResult);
    };
    match axis {
        Axis::X => Ok(Num(a[0], s)),
        Axis::Y => Ok(Num(a[1], s)),
        Axis::Z => Ok(Num(a[2], s)),
    }
}

pub(crate) fn one_value(op: Op1, a: Value) -> Result<Value, Stop>
    ensures { result ≡ rules.one_value op a }
{
    match op {
        Op1::Neg => negative_value(a),
        Op1::Not => not_value(a),
        Op1::Isqrt => root_value(a),
        Op1::Abs => abs_value(a),
    }
}

/// By both operands, which `&&` and `||` don't always need: of these two nothing is said here.
pub(crate) fn two_value(op: Op2, a: Value, b: Value) -> Result<Value, Stop>
    ensures { result ≡ rules.two_value op a b }
{
    match op {
        Op2::Add => sum_value(a, b),
        Op2::Sub => difference_value(a, b),
        Op2::Mul => product_value(a, b),
        Op2::Div => quotient_value(a, b),
        Op2::Lt | Op2::Le | Op2::Gt | Op2::Ge | Op2::Eq | Op2::Ne => relation_value(op, a, b),
        Op2::And | Op2::Or => Err(Stop::NoResult),
        Op2::Least => least_value(a, b),
        Op2::Most => greatest_value(a, b),
    }
}

pub(crate) fn three_value(op: Op3, a: Value, b: Value, c: Value) -> Result<Value, Stop>
    ensures { result ≡ rules.three_value op a b c }
{
    match op {
        Op3::Muldiv => muldiv_value(a, b, c),
        Op3::Build => build_value(a, b, c),
    }
}

pub(crate) fn to_value(to: u32, a: Value) -> Result<Value, Stop>
    ensures { result ≡ rules.to_value to a }
{
    match a {
        Num(a, s) if to <= MOST && s <= MOST => num(to, rescale(a, s, to)),
        Vec3(a, s) if to <= MOST && s <= MOST => vec_of(
            to,
            rescale(a[0], s, to),
            rescale(a[1], s, to),
            rescale(a[2], s, to),
        ),
        _ => Err(Stop::NoResult),
    }
}

/// The truth of a condition.
pub(crate) fn truth(a: Value) -> Result<bool, Stop>
    ensures { result ≡ rules.truth a }
{
    match a {
        Condition(holds) => Ok(holds),
        _ => Err(Stop::NoResult),
    }
}

fn negative_value(a: Value) -> Result<Value, Stop>
    ensures { result ≡ rules.negative_value a }
{
    match a {
        Num(a, s) => num(s, checked_neg(a)),
        Vec3(a, s) => vec_of(s, checked_neg(a[0]), checked_neg(a[1]), checked_neg(a[2])),
        Condition(_) => Err(Stop::NoResult),
    }
}

fn not_value(a: Value) -> Result<Value, Stop>
    ensures { result ≡ rules.not_value a }
{
    match a {
        Condition(holds) => Ok(Condition(!holds)),
        _ => Err(Stop::NoResult),
    }
}

fn root_value(a: Value) -> Result<Value, Stop>
    ensures { result ≡ rules.root_value a }
{
    match a {
        Num(a, s) if s % 2 == 0 => num(s / 2, root(a)),
        _ => Err(Stop::NoResult),
    }
}

fn abs_value(a: Value) -> Result<Value, Stop>
    ensures { result ≡ rules.abs_value a }
{
    match a {
        Num(a, s) => num(s, checked_abs(a)),
        _ => Err(Stop::NoResult),
    }
}

fn sum_value(a: Value, b: Value) -> Result<Value, Stop>
    ensures { result ≡ rules.sum_value a b }
{
    match (a, b) {
        (Num(a, s), Num(b, t)) if s == t => num(s, checked_add(a, b)),
        (Vec3(a, s), Vec3(b, t)) if s == t => vec_of(
            s,
            checked_add(a[0], b[0]),
            checked_add(a[1], b[1]),
            checked_add(a[2], b[2]),
        ),
        _ => Err(Stop::NoResult),
    }
}

fn difference_value(a: Value, b: Value) -> Result<Value, Stop>
    ensures { result ≡ rules.difference_value a b }
{
    match (a, b) {
        (Num(a, s), Num(b, t)) if s == t => num(s, checked_sub(a, b)),
        (Vec3(a, s), Vec3(b, t)) if s == t => vec_of(
            s,
            checked_sub(a[0], b[0]),
            checked_sub(a[1], b[1]),
            checked_sub(a[2], b[2]),
        ),
        _ => Err(Stop::NoResult),
    }
}

fn product_value(a: Value, b: Value) -> Result<Value, Stop>
    ensures { result ≡ rules.product_value a b }
{
    match (a, b) {
        (Num(a, s), Num(b, t)) => match product_scale(s, t) {
            Some(scale) => num(scale, checked_mul(a, b)),
            None => Err(Stop::NoResult),
        },
        (Num(a, s), Vec3(b, t)) => multiple(a, s, b, t),
        (Vec3(a, s), Num(b, t)) => scaled_by(a, s, b, t),
        (Vec3(a, s), Vec3(b, t)) => match product_scale(s, t) {
            Some(scale) => num(scale, dot(a, b)),
            None => Err(Stop::NoResult),
        },
        _ => Err(Stop::NoResult),
    }
}

fn multiple(a: i64, s: u32, b: [i64; 3], t: u32) -> Result<Value, Stop>
    ensures { result ≡ rules.multiple a s b t }
{
    match product_scale(s, t) {
        Some(scale) => vec_of(
            scale,
            checked_mul(a, b[0]),
            checked_mul(a, b[1]),
            checked_mul(a, b[2]),
        ),
        None => Err(Stop::NoResult),
    }
}

fn scaled_by(a: [i64; 3], s: u32, b: i64, t: u32) -> Result<Value, Stop>
    ensures { result ≡ rules.scaled_by a s b t }
{
    match product_scale(s, t) {
        Some(scale) => vec_of(
            scale,
            checked_mul(a[0], b),
            checked_mul(a[1], b),
            checked_mul(a[2], b),
        ),
        None => Err(Stop::NoResult),
    }
}

fn quotient_value(a: Value, b: Value) -> Result<Value, Stop>
    ensures { result ≡ rules.quotient_value a b }
{
    match (a, b) {
        (Num(a, s), Num(b, t)) if t <= s => num(s - t, checked_div(a, b)),
        (Vec3(a, s), Num(b, t)) if t <= s => quotients(s - t, a, b),
        _ => Err(Stop::NoResult),
    }
}

fn quotients(scale: u32, a: [i64; 3], b: i64) -> Result<Value, Stop>
    ensures { result ≡ rules.quotients scale a b }
{
    let x = checked_div(a[0], b);
    let y = checked_div(a[1], b);
    let z = checked_div(a[2], b);
    vec_of(scale, x, y, z)
}

fn muldiv_value(a: Value, b: Value, c: Value) -> Result<Value, Stop>
    ensures { result ≡ rules.muldiv_value a b c }
{
    match (a, b, c) {
        (Num(a, s), Num(b, t), Num(c, u)) => match muldiv_scale(s, t, u) {
            Some(scale) => num(scale, muldiv(a, b, c)),
            None => Err(Stop::NoResult),
        },
        (Num(a, s), Vec3(b, t), Num(c, u)) => match muldiv_scale(s, t, u) {
            Some(scale) => muldivs(scale, a, b, c),
            None => Err(Stop::NoResult),
        },
        _ => Err(Stop::NoResult),
    }
}

fn muldivs(scale: u32, a: i64, b: [i64; 3], c: i64) -> Result<Value, Stop>
    ensures { result ≡ rules.muldivs scale a b c }
{
    let x = muldiv(a, b[0], c);
    let y = muldiv(a, b[1], c);
    let z = muldiv(a, b[2], c);
    vec_of(scale, x, y, z)
}

fn build_value(a: Value, b: Value, c: Value) -> Result<Value, Stop>
    ensures { result ≡ rules.build_value a b c }
{
    match (a, b, c) {
        (Num(a, s), Num(b, t), Num(c, u)) if s == t && t == u => Ok(Vec3([a, b, c], s)),
        _ => Err(Stop::NoResult),
    }
}

fn relation_value(op: Op2, a: Value, b: Value) -> Result<Value, Stop>
    ensures { result ≡ rules.relation_value op a b }
{
    match (a, b) {
        (Num(a, s), Num(b, t)) if s == t => Ok(Condition(holds(op, a, b))),
        _ => Err(Stop::NoResult),
    }
}

fn holds(op: Op2, a: i64, b: i64) -> bool
    ensures { result ≡ rules.holds op a b }
{
    match op {
        Op2::Lt => a < b,
        Op2::Le => a <= b,
        Op2::Gt => a > b,
        Op2::Ge => a >= b,
        Op2::Eq => a == b,
        Op2::Ne => a != b,
        _ => false,
    }
}

fn least_value(a: Value, b: Value) -> Result<Value, Stop>
    ensures { result ≡ rules.least_value a b }
{
    match (a, b) {
        (Num(a, s), Num(b, t)) if s == t => Ok(Num(if a <= b { a } else { b }, s)),
        _ => Err(Stop::NoResult),
    }
}

fn greatest_value(a: Value, b: Value) -> Result<Value, Stop>
    ensures { result ≡ rules.greatest_value a b }
{
    match (a, b) {
        (Num(a, s), Num(b, t)) if s == t => Ok(Num(if a <= b { b } else { a }, s)),
        _ => Err(Stop::NoResult),
    }
}
