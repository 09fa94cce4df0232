ghost use Rattle.std.specs.Prelude.{◌≡◌};
ghost use Rattle.std.specs.List.{list_any, list_all};
ghost use Rattle.lane_code.specs.Validity as rules;

use crate::{Instr, Lane, RawCode};
use pf_geom::Axis;
use pf_model::Field;

// The most fraction bits that a number has, and so the most by which `Up` and `Down` move it.
const MOST_SHIFT: u32 = 62;

/// Whether an instruction keeps every rule, after these.
pub(crate) fn is_fine(raw: &RawCode, before: &[Instr], instr: &Instr) -> bool
    ensures { result ≡ rules.is_fine raw.now before.now instr.now }
{
    is_there(&instr.act)
        && is_shifted_little(&instr.act)
        && masks_are_fine(raw, before, instr)
        && reads_are_fine(raw, before, &instr.act)
        && is_write_fine(raw, instr)
        && is_gift_fine(raw, before, &instr.act)
}

// Vel is the particle's alone, Count the item's.
fn is_there(act: &Lane) -> bool
    ensures { result ≡ rules.is_there act.now }
{
    !matches!(
        act,
        Lane::LoadI(Field::Count, _) | Lane::LoadJ(Field::Vel, _)
    )
}

fn is_shifted_little(act: &Lane) -> bool
    ensures { result ≡ rules.is_shifted_little act.now }
{
    match act {
        Lane::Up(_, k) | Lane::Down(_, k) => *k <= MOST_SHIFT,
        _ => true,
    }
}

fn masks_are_fine(raw: &RawCode, before: &[Instr], instr: &Instr) -> bool
    ensures { result ≡ list_all (rules.is_mask_known raw.now before.now)
        (rules.masks_read instr.now.under instr.now.act) }
{
    match &instr.act {
        Lane::And(m, n) | Lane::AndNot(m, n) | Lane::Or(m, n) => {
            is_mask_known(raw, before, *m) && is_mask_known(raw, before, *n)
        }
        _ => is_mask_known(raw, before, instr.under),
    }
}

// Mask 0 is known from the start, another once it is written.
fn is_mask_known(raw: &RawCode, before: &[Instr], mask: u32) -> bool
    ensures { result ≡ rules.is_mask_known raw.now before.now mask }
{
    mask < raw.masks && (mask == 0 || is_mask_written(before, mask))
}

fn is_mask_written(before: &[Instr], mask: u32) -> bool
    ensures { result ≡ list_any (rules.writes_mask mask) before.now }
{
    before.iter().any(|instr| writes_mask(instr, mask))
}

fn reads_are_fine(raw: &RawCode, before: &[Instr], act: &Lane) -> bool
    ensures { result ≡ list_all (rules.is_number_known raw.now before.now) (rules.numbers_read act.now) }
{
    match act {
        Lane::Const(_) | Lane::LoadI(_, _) | Lane::LoadJ(_, _) => true,
        Lane::And(_, _) | Lane::AndNot(_, _) | Lane::Or(_, _) => true,
        Lane::Copy(a) | Lane::Neg(a) | Lane::Abs(a) | Lane::Root(a) => {
            are_numbers_known(raw, before, &[*a])
        }
        Lane::Up(a, _) | Lane::Down(a, _) | Lane::Give(_, _, a) => {
            are_numbers_known(raw, before, &[*a])
        }
        Lane::Add(a, b) | Lane::Sub(a, b) | Lane::Mul(a, b) | Lane::Div(a, b) => {
            are_numbers_known(raw, before, &[*a, *b])
        }
        Lane::Least(a, b) | Lane::Most(a, b) | Lane::Compare(_, a, b) => {
            are_numbers_known(raw, before, &[*a, *b])
        }
        Lane::MulDiv(a, b, c) => are_numbers_known(raw, before, &[*a, *b, *c]),
        Lane::Dot(a, b, c, d, e, f) => are_numbers_known(raw, before, &[*a, *b, *c, *d, *e, *f]),
    }
}

fn are_numbers_known(raw: &RawCode, before: &[Instr], registers: &[u32]) -> bool
    ensures { result ≡ list_all (rules.is_number_known raw.now before.now) registers.now }
{
    registers.iter().all(|r| is_number_known(raw, before, *r))
}

// A number is known once it is written.
fn is_number_known(raw: &RawCode, before: &[Instr], number: u32) -> bool
    ensures { result ≡ rules.is_number_known raw.now before.now number }
{
    number < raw.numbers && is_number_written(before, number)
}

fn is_number_written(before: &[Instr], number: u32) -> bool
    ensures { result ≡ list_any (rules.writes_number number) before.now }
{
    before.iter().any(|instr| writes_number(instr, number))
}

fn is_write_fine(raw: &RawCode, instr: &Instr) -> bool
    ensures { result ≡ rules.is_write_fine raw.now instr.now }
{
    if makes_mask(&instr.act) {
        instr.out < raw.masks && instr.out != 0
    } else if makes_number(&instr.act) {
        instr.out < raw.numbers
    } else {
        true
    }
}

// No component of a slot is given twice.
fn is_gift_fine(raw: &RawCode, before: &[Instr], act: &Lane) -> bool
    ensures { result ≡ rules.is_gift_fine raw.now before.now act.now }
{
    match act {
        Lane::Give(slot, axis, _) => { *slot < raw.slots && !is_given(before, *slot, *axis) }
        _ => true,
    }
}

fn is_given(before: &[Instr], slot: u32, axis: Axis) -> bool
    ensures { result ≡ list_any (rules.gives slot axis) before.now }
{
    before.iter().any(|instr| gives(instr, slot, axis))
}

fn makes_mask(act: &Lane) -> bool
    ensures { result ≡ rules.makes_mask act.now }
{
    matches!(
        act,
        Lane::Compare(_, _, _) | Lane::And(_, _) | Lane::AndNot(_, _) | Lane::Or(_, _)
    )
}

fn makes_number(act: &Lane) -> bool
    ensures { result ≡ rules.makes_number act.now }
{
    match act {
        Lane::Give(_, _, _) => false,
        _ => !makes_mask(act),
    }
}

fn writes_number(instr: &Instr, number: u32) -> bool
    ensures { result ≡ rules.writes_number number instr.now }
{
    makes_number(&instr.act) && instr.out == number
}

fn writes_mask(instr: &Instr, mask: u32) -> bool
    ensures { result ≡ rules.writes_mask mask instr.now }
{
    makes_mask(&instr.act) && instr.out == mask
}

fn gives(instr: &Instr, slot: u32, axis: Axis) -> bool
    ensures { result ≡ rules.gives slot axis instr.now }
{
    gives_to(&instr.act, slot, axis)
}

fn gives_to(act: &Lane, slot: u32, axis: Axis) -> bool
    ensures { result ≡ rules.gives_to slot axis act.now }
{
    match act {
        Lane::Give(other, along, _) => *other == slot && is_axis(*along, axis),
        _ => false,
    }
}

fn is_axis(a: Axis, b: Axis) -> bool
    ensures { result ≡ rules.is_axis a b }
{
    matches!(
        (a, b),
        (Axis::X, Axis::X) | (Axis::Y, Axis::Y) | (Axis::Z, Axis::Z)
    )
}
