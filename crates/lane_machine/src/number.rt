ghost use Rattle.std.specs.Prelude.{◌≡◌, ◌<◌, ◌≤◌, ℕ, pos, true, None, Some, OnOk, OnErr, IfOk, IsOkAnd, IsErr, length, slice_index_or, slice_set};
ghost use Rattle.lane_code.specs.Steps.{step};
ghost use Rattle.lane_code.specs.Validity.{makes_number, is_shifted_little};
ghost use Rattle.lane_machine.specs.Block.{SomeLaneFaults, step_at, with_number_at};
ghost use Rattle.lane_machine.specs.Columns.{lane_of};

use crate::answer::answer_at;
use crate::column::{Column, LANES, Mask, mask_at, number_at};
use lane_code::Instr;
use pf_model::{Body, Item};
use pf_num::NumFault;
use std::mem;

/// Some item's lane faults.
#[derive(Clone, Copy, Debug, PartialEq, Eq)]
pub struct Faulted;

/// Writes what an instruction gives to its number register, in the lanes of its mask. `spare` is room for a column.
pub(crate) fn write_number(
    i: &Body,
    items: &[Item],
    instr: &Instr,
    numbers: &mut [Box<Column>],
    masks: &[Box<Mask>],
    spare: &mut Box<Column>,
) -> Result<(), Faulted>
    requires number { makes_number instr.now.act ≡ true }
    requires shift { is_shifted_little instr.now.act ≡ true }
    requires few { length items.now ≤ LANES }
    ensures ok { OnOk result ((l : ℕ) → l < length items.now
        → step_at i.now items.now instr.now numbers.old masks.now l ≡ Some (lane_of numbers.new masks.now l)) }
    ensures fault { OnErr result (SomeLaneFaults (length items.now) (step_at i.now items.now instr.now numbers.old masks.now)) }
{
    fill(i, items, instr, numbers, masks, spare)?;
    let out = instr.out as usize;
    if out < numbers.len() {
        mem::swap(&mut numbers[out], spare);
    }
    Ok(())
}

// Writes to a column what stands in the register of an instruction after it.
fn fill(
    i: &Body,
    items: &[Item],
    instr: &Instr,
    numbers: &[Box<Column>],
    masks: &[Box<Mask>],
    out: &mut Column,
) -> Result<(), Faulted>
    requires number { makes_number instr.now.act ≡ true }
    requires shift { is_shifted_little instr.now.act ≡ true }
    requires few { length items.now ≤ LANES }
    ensures ok { OnOk result ((l : ℕ) → l < length items.now → step_at i.now items.now instr.now numbers.now masks.now l
        ≡ Some (with_number_at numbers.now masks.now l instr.now.out (slice_index_or out.new l (pos 0)))) }
    ensures fault { OnErr result (SomeLaneFaults (length items.now) (step_at i.now items.now instr.now numbers.now masks.now)) }
{
    for l in 0..items.len() {
        let value = value_at(i, &items[l], instr, numbers, masks, l);
        store(out, l, value)?;
    }
    Ok(())
}

// What stands in the register of an instruction after it, in a lane.
fn value_at(
    i: &Body,
    j: &Item,
    instr: &Instr,
    numbers: &[Box<Column>],
    masks: &[Box<Mask>],
    lane: usize,
) -> Result<i64, NumFault>
    requires number { makes_number instr.now.act ≡ true }
    requires shift { is_shifted_little instr.now.act ≡ true }
    requires lane { lane < LANES }
    ensures ok { IfOk result (λ value. step i.now j.now instr.now (lane_of numbers.now masks.now lane)
        ≡ Some (with_number_at numbers.now masks.now lane instr.now.out value)) }
    ensures fault { OnErr result (step i.now j.now instr.now (lane_of numbers.now masks.now lane) ≡ None) }
{
    if mask_at(masks, instr.under, lane) {
        answer_at(i, j, &instr.act, numbers, lane)
    } else {
        Ok(number_at(numbers, instr.out, lane))
    }
}

// Writes a number to a lane, where there is one.
fn store(out: &mut Column, lane: usize, value: Result<i64, NumFault>) -> Result<(), Faulted>
    requires { lane < LANES }
    ensures ok { OnOk result (IsOkAnd value (λ number. out.new ≡ slice_set out.old lane number)) }
    ensures fault { OnErr result (IsErr value) }
{
    match value {
        Ok(number) => {
            out[lane] = number;
            Ok(())
        }
        Err(_) => Err(Faulted),
    }
}
