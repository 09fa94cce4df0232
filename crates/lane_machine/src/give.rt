ghost use Rattle.std.specs.Prelude.{◌≡◌, ◌+◌, ◌≤◌, ◌^◌, ℕ, All, false, slice_get, length, fold};
ghost use Rattle.lane_code.specs.Outcome.{given_by};
ghost use Rattle.lane_code.specs.Validity.{makes_number, makes_mask};
ghost use Rattle.lane_machine.specs.Block.{lane_in};
ghost use Rattle.lane_machine.specs.Gathered.{AddsLanes, gathered, gift_of};
ghost use Rattle.lane_machine.specs.Total.{AreFew, along, with_along, joined};

use crate::column::{LANES, mask_at, number_at};
use crate::registers::Registers;
use crate::total::Total;
use lane_code::{Instr, Lane};
use pf_geom::Axis;

/// Adds what an instruction gives in so many lanes.
pub(crate) fn give(
    count: usize,
    instr: &Instr,
    registers: &Registers,
    slots: &[u32],
    totals: &mut [Total],
)
    requires number { makes_number instr.now.act ≡ false }
    requires mask { makes_mask instr.now.act ≡ false }
    requires count { count ≤ LANES }
    requires room { All (AreFew (2 ^ 57)) totals.old }
    ensures { AddsLanes slots.now (λ l. given_by instr.now (lane_in registers.now l)) count LANES totals.old totals.new }
{
    match instr.act {
        Lane::Give(slot, axis, register) => match force_of(slots, slot) {
            Some(force) => {
                let force = force as usize;
                if force < totals.len() {
                    totals[force] = added(
                        totals[force],
                        axis,
                        count,
                        register,
                        instr.under,
                        registers,
                    );
                }
            }
            None => {}
        },
        _ => unreachable!(),
    }
}

// The variable of a slot.
fn force_of(slots: &[u32], slot: u32) -> Option<u32>
    ensures { result ≡ slice_get slots.now slot }
{
    slots.get(slot as usize).copied()
}

// A total with the numbers of a register in those of so many lanes that a mask has.
fn added(
    total: Total,
    axis: Axis,
    count: usize,
    register: u32,
    under: u32,
    registers: &Registers,
) -> Total
    requires count { count ≤ LANES }
    requires room { AreFew (2 ^ 57) total }
    ensures value { result ≡ with_along axis total (fold (joined total.combine) (along axis total)
        (gathered (λ l. gift_of under register (lane_in registers.now l)) count)) }
    ensures few { (n : ℕ) → AreFew n total → AreFew (n + count) result }
{
    let mut sum = total;
    for l in 0..count {
        if mask_at(&registers.masks, under, l) {
            sum = sum.and(axis, number_at(&registers.numbers, register, l));
        }
    }
    sum
}
