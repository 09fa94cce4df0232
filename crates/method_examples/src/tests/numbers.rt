use pf_num::{
    NumFault, OutOfMemory, checked_abs, checked_add, checked_div, checked_mul, checked_neg,
    checked_sub, dot, isqrt, muldiv, rescale, root,
};
use std::alloc::Global;

const MIN: i64 = i64::MIN;

const MAX: i64 = i64::MAX;

type Answer = Result<i64, NumFault>;

const OVERFLOW: Answer = Err(NumFault::Overflow);

const ZERO_DIVISOR: Answer = Err(NumFault::ZeroDivisor);

const NEGATIVE_ROOT: Answer = Err(NumFault::NegativeRoot);

// A call with its numbers.
enum Call {
    Add(i64, i64),
    Sub(i64, i64),
    Mul(i64, i64),
    Neg(i64),
    Abs(i64),
    Div(i64, i64),
    MulDiv(i64, i64, i64),
    Dot([i64; 3], [i64; 3]),
    Root(i64),
}

fn answer(call: &Call) -> Answer {
    match call {
        Call::Add(a, b) => checked_add(*a, *b),
        Call::Sub(a, b) => checked_sub(*a, *b),
        Call::Mul(a, b) => checked_mul(*a, *b),
        Call::Neg(a) => checked_neg(*a),
        Call::Abs(a) => checked_abs(*a),
        Call::Div(a, b) => checked_div(*a, *b),
        Call::MulDiv(a, b, c) => muldiv(*a, *b, *c),
        Call::Dot(a, b) => dot(*a, *b),
        Call::Root(a) => root(*a),
    }
}

// The place of the first call with another answer, if there is one.
fn first_other(calls: &[(Call, Answer)]) -> Option<usize> {
    for i in 0..calls.len() {
        let (call, wanted) = &calls[i];
        if answer(call) != *wanted {
            return Some(i);
        }
    }
    None
}

const LIMITS: [(Call, Answer); 15] = [
    (Call::Add(MAX, 1), OVERFLOW),
    (Call::Add(MIN, -1), OVERFLOW),
    (Call::Add(MIN, MAX), Ok(-1)),
    (Call::Sub(0, MIN), OVERFLOW),
    (Call::Sub(MIN, 1), OVERFLOW),
    (Call::Sub(-1, MIN), Ok(MAX)),
    (Call::Mul(1 << 32, 1 << 31), OVERFLOW),
    (Call::Mul(1 << 32, -1 << 31), Ok(MIN)),
    (Call::Mul(MIN, -1), OVERFLOW),
    (
        Call::Mul(-3_037_000_499, -3_037_000_499),
        Ok(9_223_372_030_926_249_001),
    ),
    (Call::Mul(3_037_000_500, 3_037_000_500), OVERFLOW),
    (Call::Neg(MIN), OVERFLOW),
    (Call::Neg(MAX), Ok(-MAX)),
    (Call::Abs(MIN), OVERFLOW),
    (Call::Abs(-MAX), Ok(MAX)),
];

#[test]
fn limits_are_reached_and_not_passed(rt: HostRuntime) {
    assert_eq!(rt; first_other(&LIMITS), None);
}

const QUOTIENTS: [(Call, Answer); 16] = [
    (Call::Div(7, 2), Ok(3)),
    (Call::Div(-7, 2), Ok(-3)),
    (Call::Div(7, -2), Ok(-3)),
    (Call::Div(-7, -2), Ok(3)),
    (Call::Div(MIN, MAX), Ok(-1)),
    (Call::Div(MAX, MIN), Ok(0)),
    (Call::Div(MIN, -1), OVERFLOW),
    (Call::Div(MIN, 0), ZERO_DIVISOR),
    (Call::MulDiv(7, 1, 2), Ok(3)),
    (Call::MulDiv(-7, 1, 2), Ok(-3)),
    (Call::MulDiv(7, 1, -2), Ok(-3)),
    (Call::MulDiv(-7, 1, -2), Ok(3)),
    (Call::MulDiv(MIN, 1, MAX), Ok(-1)),
    (Call::MulDiv(MAX, 1, MIN), Ok(0)),
    (Call::MulDiv(MIN, 1, -1), OVERFLOW),
    (Call::MulDiv(MIN, 1, 0), ZERO_DIVISOR),
];

#[test]
fn quotients_drop_their_fraction(rt: HostRuntime) {
    assert_eq!(rt; first_other(&QUOTIENTS), None);
}

const PRODUCTS: [(Call, Answer); 7] = [
    (
        Call::MulDiv(1_000_000_000_000_000_000, 10, -100),
        Ok(-100_000_000_000_000_000),
    ),
    (Call::MulDiv(3, -5, 2), Ok(-7)),
    (Call::MulDiv(MIN, MIN, MIN), Ok(MIN)),
    (Call::MulDiv(MIN, -1, -1), Ok(MIN)),
    (Call::MulDiv(MIN, MAX, MAX), Ok(MIN)),
    (Call::MulDiv(MIN, MIN, MAX), OVERFLOW),
    (Call::MulDiv(MIN, MIN, 0), ZERO_DIVISOR),
];

#[test]
fn only_the_quotient_of_a_product_must_fit(rt: HostRuntime) {
    assert_eq!(rt; first_other(&PRODUCTS), None);
}

const SUMS: [(Call, Answer); 8] = [
    (Call::Dot([3, -4, 5], [-2, 7, 1]), Ok(-29)),
    (Call::Dot([MAX, MAX, 5], [MAX, -MAX, 1]), Ok(5)),
    // 2^126 - (2^126 - 2^63) is 2^63, one more than an i64 holds.
    (Call::Dot([MIN, MIN, 0], [MIN, MAX, 0]), OVERFLOW),
    (Call::Dot([MIN, MIN, 1], [MIN, MAX, -1]), Ok(MAX)),
    (Call::Dot([MIN, MAX, 1], [MAX, MAX, -1]), Ok(MIN)),
    (Call::Dot([MIN, MAX, 2], [MAX, MAX, -1]), OVERFLOW),
    // The first two products are 2^127 together, and all three at most 3 * 2^126.
    (Call::Dot([MIN, MIN, MIN], [MIN, MIN, MAX]), OVERFLOW),
    (Call::Dot([MIN; 3], [MIN; 3]), OVERFLOW),
];

#[test]
fn only_the_whole_sum_must_fit(rt: HostRuntime) {
    assert_eq!(rt; first_other(&SUMS), None);
}

// A number, the fraction bits that it has and those that it is to have, and what it comes to.
const SCALES: [(i64, u32, u32, Answer); 11] = [
    (3, 20, 22, Ok(12)),
    (1, 0, 62, Ok(1 << 62)),
    (-2, 0, 62, Ok(MIN)),
    (7, 1, 0, Ok(3)),
    (-7, 1, 0, Ok(-3)),
    (-1, 62, 0, Ok(0)),
    (MAX, 62, 0, Ok(1)),
    (MIN, 62, 0, Ok(-2)),
    (MIN, 5, 5, Ok(MIN)),
    (2, 0, 62, OVERFLOW),
    (MIN, 16, 17, OVERFLOW),
];

// The place of the first that comes to something else, if there is one.
fn first_other_scale(scales: &[(i64, u32, u32, Answer)]) -> Option<usize> {
    for i in 0..scales.len() {
        let (x, from, to, wanted) = scales[i];
        if from > 62 || to > 62 || rescale(x, from, to) != wanted {
            return Some(i);
        }
    }
    None
}

#[test]
fn scales_change_by_powers_of_two(rt: HostRuntime) {
    assert_eq!(rt; first_other_scale(&SCALES), None);
}

const ROOTS: [(u64, u64); 10] = [
    (0, 0),
    (1, 1),
    (2, 1),
    (8, 2),
    (9, 3),
    (10, 3),
    (18_446_744_065_119_617_024, 4_294_967_294),
    (18_446_744_065_119_617_025, 4_294_967_295),
    (18_446_744_065_119_617_026, 4_294_967_295),
    (u64::MAX, 4_294_967_295),
];

// The place of the first number with another root, if there is one.
fn first_other_root(roots: &[(u64, u64)]) -> Option<usize> {
    for i in 0..roots.len() {
        let (x, wanted) = roots[i];
        if isqrt(x) != wanted {
            return Some(i);
        }
    }
    None
}

const SIGNED_ROOTS: [(Call, Answer); 3] = [
    (Call::Root(MAX), Ok(3_037_000_499)),
    (Call::Root(-1), NEGATIVE_ROOT),
    (Call::Root(MIN), NEGATIVE_ROOT),
];

#[test]
fn roots_change_at_squares(rt: HostRuntime) {
    assert_eq!(rt; first_other_root(&ROOTS), None);
    assert_eq!(rt; first_other(&SIGNED_ROOTS), None);
}

// How many numbers there are, once all are pushed.
fn three_numbers(alloc: Global) -> Result<usize, OutOfMemory> {
    let mut numbers = Vec::new(alloc);
    numbers.push(1)?;
    numbers.extend_from_slice(&[2, 3])?;
    Ok(numbers.len())
}

#[test]
fn errors_of_growth_convert(rt: HostRuntime) {
    assert!(rt; matches!(three_numbers(rt.alloc()), Ok(3)));
}
