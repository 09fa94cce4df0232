ghost use Rattle.std.specs.Prelude.{◌≡◌, ◌<◌, ℕ, pos, true, false, length, vec_len, replicate, slice_set};
ghost use Rattle.lane_machine.specs.Block.{lane_in};
ghost use Rattle.lane_machine.specs.Columns.{numbers_at, masks_at, start_of};

use crate::column::{Column, LANES, Mask};
use crate::registers::Registers;

/// Puts the lanes of a block at the start: numbers are 0, and no mask holds but mask 0.
pub(crate) fn clear(registers: &mut Registers)
    ensures lanes { (l : ℕ) → l < LANES
        → lane_in registers.new l ≡ start_of (vec_len registers.old.numbers) (vec_len registers.old.masks) }
    ensures numbers { vec_len registers.new.numbers ≡ vec_len registers.old.numbers }
    ensures masks { vec_len registers.new.masks ≡ vec_len registers.old.masks }
{
    clear_numbers(registers.numbers.as_mut_slice());
    clear_masks(registers.masks.as_mut_slice());
}

fn clear_numbers(numbers: &mut [Box<Column>])
    ensures { (l : ℕ) → numbers_at numbers.new l ≡ replicate (length numbers.old) (pos 0) }
{
    for r in 0..numbers.len() {
        *numbers[r] = [0; LANES];
    }
}

fn clear_masks(masks: &mut [Box<Mask>])
    ensures { (l : ℕ) → l < LANES → masks_at masks.new l ≡ slice_set (replicate (length masks.old) false) 0 true }
{
    for m in 0..masks.len() {
        *masks[m] = [m == 0; LANES];
    }
}
