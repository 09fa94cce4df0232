ghost use Rattle.std.specs.Prelude.{◌≡◌, ◌<◌, ◌≤◌, ℕ, true, false, Some, length, slice_index_or};
ghost use Rattle.lane_code.specs.Steps as steps;
ghost use Rattle.lane_code.specs.Steps.{step, truth_of_act};
ghost use Rattle.lane_code.specs.Validity.{makes_mask};
ghost use Rattle.lane_machine.specs.Block.{step_at, with_mask_at};
ghost use Rattle.lane_machine.specs.Columns.{lane_of};

use crate::column::{Column, LANES, Mask, mask_at, number_at};
use lane_code::{Instr, Lane, Relation};
use pf_model::{Body, Item};
use std::mem;

/// Writes what an instruction gives to its mask register, in all lanes. `spare` is room for a mask.
pub(crate) fn write_mask(
    i: &Body,
    items: &[Item],
    instr: &Instr,
    numbers: &[Box<Column>],
    masks: &mut [Box<Mask>],
    spare: &mut Box<Mask>,
)
    requires mask { makes_mask instr.now.act ≡ true }
    requires few { length items.now ≤ LANES }
    ensures { (l : ℕ) → l < length items.now
        → step_at i.now items.now instr.now numbers.now masks.old l ≡ Some (lane_of numbers.now masks.new l) }
{
    let _body = *i;
    fill(items.len(), instr, numbers, masks, spare);
    let out = instr.out as usize;
    if out < masks.len() {
        mem::swap(&mut masks[out], spare);
    }
}

// Writes to a column what stands in the mask of an instruction after it, in so many lanes.
fn fill(count: usize, instr: &Instr, numbers: &[Box<Column>], masks: &[Box<Mask>], out: &mut Mask)
    requires mask { makes_mask instr.now.act ≡ true }
    requires few { count ≤ LANES }
    ensures { (l : ℕ) → l < count
        → truth_of_act (steps.mask_at (lane_of numbers.now masks.now l).masks instr.now.under) (lane_of numbers.now masks.now l) instr.now.act
        ≡ Some (slice_index_or out.new l false) }
{
    for l in 0..count {
        out[l] = truth_at(instr, numbers, masks, l);
    }
}

// What an instruction gives for a mask in a lane.
fn truth_at(instr: &Instr, numbers: &[Box<Column>], masks: &[Box<Mask>], lane: usize) -> bool
    requires mask { makes_mask instr.now.act ≡ true }
    requires lane { lane < LANES }
    ensures { truth_of_act (steps.mask_at (lane_of numbers.now masks.now lane).masks instr.now.under)
        (lane_of numbers.now masks.now lane) instr.now.act ≡ Some result }
{
    match instr.act {
        Lane::Compare(relation, a, b) => {
            let related = are_related(
                relation,
                number_at(numbers, a, lane),
                number_at(numbers, b, lane),
            );
            mask_at(masks, instr.under, lane) && related
        }
        Lane::And(m, n) => mask_at(masks, m, lane) && mask_at(masks, n, lane),
        Lane::AndNot(m, n) => mask_at(masks, m, lane) && !mask_at(masks, n, lane),
        Lane::Or(m, n) => mask_at(masks, m, lane) || mask_at(masks, n, lane),
        _ => unreachable!(),
    }
}

fn are_related(relation: Relation, a: i64, b: i64) -> bool
    ensures { result ≡ steps.are_related relation a b }
{
    match relation {
        Relation::Lt => a < b,
        Relation::Le => a <= b,
        Relation::Gt => a > b,
        Relation::Ge => a >= b,
        Relation::Eq => a == b,
        Relation::Ne => a != b,
    }
}
