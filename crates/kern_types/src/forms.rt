ghost use Rattle.std.specs.Prelude.{◌≡◌};
ghost use Rattle.kern_types.specs.Forms as rules;

use crate::ExprType::{self, Condition, Scaled};
use crate::TypeFault;
use kern_token::MOST_SCALE;
use kern_tree::Kind::{self, Num, Vec3};
use kern_tree::{Op1, Op2, Op3};

/// The type of `-a`, `!a`, `isqrt(a)` or `abs(a)` at this place, by that of its operand.
pub fn one_type(place: u32, op: Op1, a: ExprType) -> Result<ExprType, TypeFault>
    ensures { result ≡ rules.one_type place op a }
{
    match op {
        Op1::Neg => negative_type(place, a),
        Op1::Not => not_type(place, a),
        Op1::Isqrt => root_type(place, a),
        Op1::Abs => abs_type(place, a),
    }
}

/// The type of an operator, `min` or `max`, by those of its operands from the left.
pub fn two_type(place: u32, op: Op2, a: ExprType, b: ExprType) -> Result<ExprType, TypeFault>
    ensures { result ≡ rules.two_type place op a b }
{
    match op {
        Op2::Add | Op2::Sub => sum_type(place, a, b),
        Op2::Mul => product_type(place, a, b),
        Op2::Div => quotient_type(place, a, b),
        Op2::Lt | Op2::Le | Op2::Gt | Op2::Ge | Op2::Eq | Op2::Ne => relation_type(place, a, b),
        Op2::And | Op2::Or => both_type(place, a, b),
        Op2::Least | Op2::Most => least_type(place, a, b),
    }
}

/// The type of `muldiv` or `vec`.
pub fn three_type(
    place: u32,
    op: Op3,
    a: ExprType,
    b: ExprType,
    c: ExprType,
) -> Result<ExprType, TypeFault>
    ensures { result ≡ rules.three_type place op a b c }
{
    match op {
        Op3::Muldiv => muldiv_type(place, a, b, c),
        Op3::Build => build_type(place, a, b, c),
    }
}

/// The type of `to(scale, a)`.
pub fn to_type(place: u32, scale: u32, a: ExprType) -> Result<ExprType, TypeFault>
    ensures { result ≡ rules.to_type place scale a }
{
    match a {
        Scaled(kind, _) => scaled_if(place, scale <= MOST_SCALE, Scaled(kind, scale)),
        Condition => Err(TypeFault::Kind(place)),
    }
}

/// The type of a component.
pub fn part_type(place: u32, a: ExprType) -> Result<ExprType, TypeFault>
    ensures { result ≡ rules.part_type place a }
{
    match a {
        Scaled(Vec3, scale) => Ok(Scaled(Num, scale)),
        _ => Err(TypeFault::Kind(place)),
    }
}

// The type, where the test of the scale holds.
fn scaled_if(place: u32, fits: bool, of: ExprType) -> Result<ExprType, TypeFault>
    ensures { result ≡ rules.scaled_if place fits of }
{
    if fits {
        Ok(of)
    } else {
        Err(TypeFault::Scale(place))
    }
}

fn negative_type(place: u32, a: ExprType) -> Result<ExprType, TypeFault>
    ensures { result ≡ rules.negative_type place a }
{
    match a {
        Scaled(_, _) => Ok(a),
        Condition => Err(TypeFault::Kind(place)),
    }
}

fn not_type(place: u32, a: ExprType) -> Result<ExprType, TypeFault>
    ensures { result ≡ rules.not_type place a }
{
    match a {
        Condition => Ok(a),
        Scaled(_, _) => Err(TypeFault::Kind(place)),
    }
}

fn abs_type(place: u32, a: ExprType) -> Result<ExprType, TypeFault>
    ensures { result ≡ rules.abs_type place a }
{
    match a {
        Scaled(Num, _) => Ok(a),
        _ => Err(TypeFault::Kind(place)),
    }
}

fn root_type(place: u32, a: ExprType) -> Result<ExprType, TypeFault>
    ensures { result ≡ rules.root_type place a }
{
    match a {
        Scaled(Num, scale) => scaled_if(place, scale % 2 == 0, Scaled(Num, scale / 2)),
        _ => Err(TypeFault::Kind(place)),
    }
}

fn sum_type(place: u32, a: ExprType, b: ExprType) -> Result<ExprType, TypeFault>
    ensures { result ≡ rules.sum_type place a b }
{
    match (a, b) {
        (Scaled(Num, s), Scaled(Num, t)) => scaled_if(place, s == t, a),
        (Scaled(Vec3, s), Scaled(Vec3, t)) => scaled_if(place, s == t, a),
        _ => Err(TypeFault::Kind(place)),
    }
}

fn product_type(place: u32, a: ExprType, b: ExprType) -> Result<ExprType, TypeFault>
    ensures { result ≡ rules.product_type place a b }
{
    match (a, b) {
        (Scaled(left, s), Scaled(right, t)) => match s.checked_add(t) {
            Some(scale) => scaled_if(
                place,
                scale <= MOST_SCALE,
                Scaled(product_kind(left, right), scale),
            ),
            None => Err(TypeFault::Scale(place)),
        },
        _ => Err(TypeFault::Kind(place)),
    }
}

// Two vecs have an inner product.
fn product_kind(a: Kind, b: Kind) -> Kind
    ensures { result ≡ rules.product_kind a b }
{
    match (a, b) {
        (Num, Num) | (Vec3, Vec3) => Num,
        (Num, Vec3) | (Vec3, Num) => Vec3,
    }
}

fn quotient_type(place: u32, a: ExprType, b: ExprType) -> Result<ExprType, TypeFault>
    ensures { result ≡ rules.quotient_type place a b }
{
    match (a, b) {
        (Scaled(kind, s), Scaled(Num, t)) => match s.checked_sub(t) {
            Some(scale) => Ok(Scaled(kind, scale)),
            None => Err(TypeFault::Scale(place)),
        },
        _ => Err(TypeFault::Kind(place)),
    }
}

fn least_type(place: u32, a: ExprType, b: ExprType) -> Result<ExprType, TypeFault>
    ensures { result ≡ rules.least_type place a b }
{
    match (a, b) {
        (Scaled(Num, s), Scaled(Num, t)) => scaled_if(place, s == t, a),
        _ => Err(TypeFault::Kind(place)),
    }
}

fn relation_type(place: u32, a: ExprType, b: ExprType) -> Result<ExprType, TypeFault>
    ensures { result ≡ rules.relation_type place a b }
{
    match (a, b) {
        (Scaled(Num, s), Scaled(Num, t)) => scaled_if(place, s == t, Condition),
        _ => Err(TypeFault::Kind(place)),
    }
}

fn both_type(place: u32, a: ExprType, b: ExprType) -> Result<ExprType, TypeFault>
    ensures { result ≡ rules.both_type place a b }
{
    match (a, b) {
        (Condition, Condition) => Ok(Condition),
        _ => Err(TypeFault::Kind(place)),
    }
}

fn muldiv_type(place: u32, a: ExprType, b: ExprType, c: ExprType) -> Result<ExprType, TypeFault>
    ensures { result ≡ rules.muldiv_type place a b c }
{
    match (a, b, c) {
        (Scaled(Num, s), Scaled(kind, t), Scaled(Num, u)) => {
            let scale = i64::from(s) + i64::from(t) - i64::from(u);
            match u32::try_from(scale) {
                Ok(scale) => scaled_if(place, scale <= MOST_SCALE, Scaled(kind, scale)),
                Err(_) => Err(TypeFault::Scale(place)),
            }
        }
        _ => Err(TypeFault::Kind(place)),
    }
}

fn build_type(place: u32, a: ExprType, b: ExprType, c: ExprType) -> Result<ExprType, TypeFault>
    ensures { result ≡ rules.build_type place a b c }
{
    match (a, b, c) {
        (Scaled(Num, s), Scaled(Num, t), Scaled(Num, u)) => {
            scaled_if(place, s == t && t == u, Scaled(Vec3, s))
        }
        _ => Err(TypeFault::Kind(place)),
    }
}
