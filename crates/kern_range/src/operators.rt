ghost use Rattle.std.specs.Prelude.{◌≡◌, pos};
ghost use Rattle.pf_num.specs.Exact.{exact};
ghost use Rattle.kern_range.specs.Operators as rules;

use crate::interval::{
    Bad, Interval, difference, greater, lesser, magnitude, negative, rescaled, root, sum, with_ends,
};
use crate::product::{inner, product, product_quotient, quotient};
use crate::range::Range::{self, Condition, Num, Vec3};
use crate::range::{Spans, muldiv_scale, num, product_scale, vec_of};
use kern_tree::{Op1, Op2, Op3};
use pf_geom::Axis;
use pf_num::NumFault;

// The greatest number of fraction bits.
const MOST: u32 = 62;

pub(crate) fn literal_range(mantissa: u64, scale: u32) -> Result<Range, Bad>
    ensures { result ≡ rules.literal_range mantissa scale }
{
    num(scale, with_ends(literal(mantissa), literal(mantissa)))
}

#[tactic(auto, using(crate::proofs::IntervalLemmas::literals))]
fn literal(mantissa: u64) -> Result<i64, NumFault>
    ensures { result ≡ exact (pos mantissa) }
{
    if mantissa <= i64::MAX as u64 {
        Ok(mantissa as i64)
    } else {
        Err(NumFault::Overflow)
    }
}

pub(crate) fn part_range(axis: Axis, a: Range) -> Result<Range, Bad>
    ensures { result ≡ rules.part_range axis a }
{
    let Vec3(a, s) = a else {
        return Err(Bad);
    };
    match axis {
        Axis::X => Ok(Num(a.x, s)),
        Axis::Y => Ok(Num(a.y, s)),
        Axis::Z => Ok(Num(a.z, s)),
    }
}

pub(crate) fn one_range(op: Op1, a: Range) -> Result<Range, Bad>
    ensures { result ≡ rules.one_range op a }
{
    match op {
        Op1::Neg => negative_range(a),
        Op1::Not => Ok(Condition),
        Op1::Isqrt => root_range(a),
        Op1::Abs => abs_range(a),
    }
}

/// Where both operands are one name in the text, or not.
pub(crate) fn two_range(op: Op2, one_name: bool, a: Range, b: Range) -> Result<Range, Bad>
    ensures { result ≡ rules.two_range op one_name a b }
{
    match op {
        Op2::Add => sum_range(a, b),
        Op2::Sub => difference_range(a, b),
        Op2::Mul => product_range(one_name, a, b),
        Op2::Div => quotient_range(a, b),
        Op2::Least => least_range(a, b),
        Op2::Most => greatest_range(a, b),
        Op2::Lt | Op2::Le | Op2::Gt | Op2::Ge | Op2::Eq | Op2::Ne | Op2::And | Op2::Or => {
            Ok(Condition)
        }
    }
}

/// Where the first two operands are one name in the text, or not.
pub(crate) fn three_range(
    op: Op3,
    one_name: bool,
    a: Range,
    b: Range,
    c: Range,
) -> Result<Range, Bad>
    ensures { result ≡ rules.three_range op one_name a b c }
{
    match op {
        Op3::Muldiv => muldiv_range(one_name, a, b, c),
        Op3::Build => build_range(a, b, c),
    }
}

pub(crate) fn to_range(to: u32, a: Range) -> Result<Range, Bad>
    ensures { result ≡ rules.to_range to a }
{
    match a {
        Num(a, s) if to <= MOST && s <= MOST => num(to, rescaled(a, s, to)),
        Vec3(a, s) if to <= MOST && s <= MOST => vec_of(
            to,
            rescaled(a.x, s, to),
            rescaled(a.y, s, to),
            rescaled(a.z, s, to),
        ),
        _ => Err(Bad),
    }
}

fn negative_range(a: Range) -> Result<Range, Bad>
    ensures { result ≡ rules.negative_range a }
{
    match a {
        Num(a, s) => num(s, negative(a)),
        Vec3(a, s) => vec_of(s, negative(a.x), negative(a.y), negative(a.z)),
        Condition => Err(Bad),
    }
}

fn root_range(a: Range) -> Result<Range, Bad>
    ensures { result ≡ rules.root_range a }
{
    match a {
        Num(a, s) if s % 2 == 0 => num(s / 2, root(a)),
        _ => Err(Bad),
    }
}

fn abs_range(a: Range) -> Result<Range, Bad>
    ensures { result ≡ rules.abs_range a }
{
    match a {
        Num(a, s) => num(s, magnitude(a)),
        _ => Err(Bad),
    }
}

fn sum_range(a: Range, b: Range) -> Result<Range, Bad>
    ensures { result ≡ rules.sum_range a b }
{
    match (a, b) {
        (Num(a, s), Num(b, t)) if s == t => num(s, sum(a, b)),
        (Vec3(a, s), Vec3(b, t)) if s == t => {
            vec_of(s, sum(a.x, b.x), sum(a.y, b.y), sum(a.z, b.z))
        }
        _ => Err(Bad),
    }
}

fn difference_range(a: Range, b: Range) -> Result<Range, Bad>
    ensures { result ≡ rules.difference_range a b }
{
    match (a, b) {
        (Num(a, s), Num(b, t)) if s == t => num(s, difference(a, b)),
        (Vec3(a, s), Vec3(b, t)) if s == t => vec_of(
            s,
            difference(a.x, b.x),
            difference(a.y, b.y),
            difference(a.z, b.z),
        ),
        _ => Err(Bad),
    }
}

fn product_range(one_name: bool, a: Range, b: Range) -> Result<Range, Bad>
    ensures { result ≡ rules.product_range one_name a b }
{
    match (a, b) {
        (Num(a, s), Num(b, t)) => match product_scale(s, t) {
            Some(scale) => num(scale, product(one_name, a, b)),
            None => Err(Bad),
        },
        (Num(a, s), Vec3(b, t)) => multiple(s, a, t, b),
        (Vec3(a, s), Num(b, t)) => scaled_by(s, a, t, b),
        (Vec3(a, s), Vec3(b, t)) => match product_scale(s, t) {
            Some(scale) => num(scale, inner(one_name, a, b)),
            None => Err(Bad),
        },
        _ => Err(Bad),
    }
}

// A num times a vec.
fn multiple(s: u32, a: Interval, t: u32, b: Spans) -> Result<Range, Bad>
    ensures { result ≡ rules.multiple s a t b }
{
    match product_scale(s, t) {
        Some(scale) => vec_of(
            scale,
            product(false, a, b.x),
            product(false, a, b.y),
            product(false, a, b.z),
        ),
        None => Err(Bad),
    }
}

// A vec times a num.
fn scaled_by(s: u32, a: Spans, t: u32, b: Interval) -> Result<Range, Bad>
    ensures { result ≡ rules.scaled_by s a t b }
{
    match product_scale(s, t) {
        Some(scale) => vec_of(
            scale,
            product(false, a.x, b),
            product(false, a.y, b),
            product(false, a.z, b),
        ),
        None => Err(Bad),
    }
}

fn quotient_range(a: Range, b: Range) -> Result<Range, Bad>
    ensures { result ≡ rules.quotient_range a b }
{
    match (a, b) {
        (Num(a, s), Num(b, t)) if t <= s => num(s - t, quotient(a, b)),
        (Vec3(a, s), Num(b, t)) if t <= s => {
            vec_of(s - t, quotient(a.x, b), quotient(a.y, b), quotient(a.z, b))
        }
        _ => Err(Bad),
    }
}

fn least_range(a: Range, b: Range) -> Result<Range, Bad>
    ensures { result ≡ rules.least_range a b }
{
    match (a, b) {
        (Num(a, s), Num(b, t)) if s == t => Ok(Num(lesser(a, b), s)),
        _ => Err(Bad),
    }
}

fn greatest_range(a: Range, b: Range) -> Result<Range, Bad>
    ensures { result ≡ rules.greatest_range a b }
{
    match (a, b) {
        (Num(a, s), Num(b, t)) if s == t => Ok(Num(greater(a, b), s)),
        _ => Err(Bad),
    }
}

fn muldiv_range(one_name: bool, a: Range, b: Range, c: Range) -> Result<Range, Bad>
    ensures { result ≡ rules.muldiv_range one_name a b c }
{
    match (a, b, c) {
        (Num(a, s), Num(b, t), Num(c, u)) => match muldiv_scale(s, t, u) {
            Some(scale) => num(scale, product_quotient(one_name, a, b, c)),
            None => Err(Bad),
        },
        (Num(a, s), Vec3(b, t), Num(c, u)) => match muldiv_scale(s, t, u) {
            Some(scale) => muldivs(scale, a, b, c),
            None => Err(Bad),
        },
        _ => Err(Bad),
    }
}

// A num times the components of a vec over a num.
fn muldivs(scale: u32, a: Interval, b: Spans, c: Interval) -> Result<Range, Bad>
    ensures { result ≡ rules.muldivs scale a b c }
{
    vec_of(
        scale,
        product_quotient(false, a, b.x, c),
        product_quotient(false, a, b.y, c),
        product_quotient(false, a, b.z, c),
    )
}

fn build_range(a: Range, b: Range, c: Range) -> Result<Range, Bad>
    ensures { result ≡ rules.build_range a b c }
{
    match (a, b, c) {
        (Num(x, s), Num(y, t), Num(z, u)) if s == t && t == u => Ok(Vec3(Spans { x, y, z }, s)),
        _ => Err(Bad),
    }
}
