ghost use Rattle.std.specs.Prelude.{◌≡◌, ◌<◌, ◌≤◌, ◌^◌, ◌*ℤ◌, pos, int_div, int_le, true, Some, [], ◌∷◌, if◌then◌else◌};
ghost use Rattle.pf_num.specs.Exact.{exact};
ghost use Rattle.lane_code.specs.Steps as steps;
ghost use Rattle.lane_code.specs.Steps.{number_of};
ghost use Rattle.lane_code.specs.Validity.{makes_number, is_shifted_little};
ghost use Rattle.lane_machine.specs.Columns.{numbers_at};

use crate::column::{Column, LANES, number_at};
use lane_code::Lane;
use pf_geom::Axis;
use pf_model::{Body, Item};
use pf_num::{
    NumFault, checked_abs, checked_add, checked_div, checked_mul, checked_neg, checked_sub, dot,
    muldiv, rescale, root,
};

/// What an act gives for a number register in a lane.
pub(crate) fn answer_at(
    i: &Body,
    j: &Item,
    act: &Lane,
    numbers: &[Box<Column>],
    lane: usize,
) -> Result<i64, NumFault>
    requires number { makes_number act.now ≡ true }
    requires shift { is_shifted_little act.now ≡ true }
    requires lane { lane < LANES }
    ensures { number_of i.now j.now (numbers_at numbers.now lane) act.now ≡ Some result }
{
    let _body = *i;
    let _item = *j;
    match *act {
        Lane::Const(value) => Ok(value),
        Lane::LoadI(field, axis) => Ok(component(axis, field.of_body(i))),
        Lane::LoadJ(field, axis) => Ok(component(axis, field.of_item(j))),
        Lane::Copy(a) => Ok(number_at(numbers, a, lane)),
        Lane::Neg(a) => checked_neg(number_at(numbers, a, lane)),
        Lane::Abs(a) => checked_abs(number_at(numbers, a, lane)),
        Lane::Root(a) => root(number_at(numbers, a, lane)),
        Lane::Add(a, b) => checked_add(number_at(numbers, a, lane), number_at(numbers, b, lane)),
        Lane::Sub(a, b) => checked_sub(number_at(numbers, a, lane), number_at(numbers, b, lane)),
        Lane::Mul(a, b) => checked_mul(number_at(numbers, a, lane), number_at(numbers, b, lane)),
        Lane::Div(a, b) => checked_div(number_at(numbers, a, lane), number_at(numbers, b, lane)),
        Lane::Up(a, k) => up(number_at(numbers, a, lane), k),
        Lane::Down(a, k) => down(number_at(numbers, a, lane), k),
        Lane::Least(a, b) => Ok(least(number_at(numbers, a, lane), number_at(numbers, b, lane))),
        Lane::Most(a, b) => Ok(most(number_at(numbers, a, lane), number_at(numbers, b, lane))),
        Lane::MulDiv(a, b, c) => muldiv(
            number_at(numbers, a, lane),
            number_at(numbers, b, lane),
            number_at(numbers, c, lane),
        ),
        Lane::Dot(a, b, c, d, e, f) => dot(
            three_at(numbers, a, b, c, lane),
            three_at(numbers, d, e, f, lane),
        ),
        _ => unreachable!(),
    }
}

// The numbers of three registers in a lane.
fn three_at(numbers: &[Box<Column>], a: u32, b: u32, c: u32, lane: usize) -> [i64; 3]
    requires { lane < LANES }
    ensures { result ≡ steps.number_at (numbers_at numbers.now lane) a ∷ steps.number_at (numbers_at numbers.now lane) b
        ∷ steps.number_at (numbers_at numbers.now lane) c ∷ [] }
{
    [
        number_at(numbers, a, lane),
        number_at(numbers, b, lane),
        number_at(numbers, c, lane),
    ]
}

fn component(axis: Axis, parts: [i64; 3]) -> i64
    ensures { result ≡ steps.component axis parts }
{
    match axis {
        Axis::X => parts[0],
        Axis::Y => parts[1],
        Axis::Z => parts[2],
    }
}

#[tactic(auto, using(crate::proofs::ShiftLemmas::shifts))]
fn up(a: i64, k: u32) -> Result<i64, NumFault>
    requires { k ≤ 62 }
    ensures { result ≡ exact (a *ℤ pos (2 ^ k)) }
{
    rescale(a, 0, k)
}

#[tactic(auto, using(crate::proofs::ShiftLemmas::shifts))]
fn down(a: i64, k: u32) -> Result<i64, NumFault>
    requires { k ≤ 62 }
    ensures { result ≡ exact (int_div a (pos (2 ^ k))) }
{
    rescale(a, k, 0)
}

fn least(a: i64, b: i64) -> i64
    ensures { result ≡ (if int_le a b then a else b) }
{
    if a <= b { a } else { b }
}

fn most(a: i64, b: i64) -> i64
    ensures { result ≡ (if int_le a b then b else a) }
{
    if a <= b { b } else { a }
}
