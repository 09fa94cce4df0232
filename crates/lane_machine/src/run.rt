ghost use Rattle.std.specs.Prelude.{◌≡◌, ◌<◌, ◌≤◌, ◌*◌, ◌^◌, ℕ, true, OnOk, OnErr, All, length, vec_len};
ghost use Rattle.std.specs.Option.{is_some};
ghost use Rattle.lane_code.specs.Validity.{is_shifted_little};
ghost use Rattle.lane_machine.specs.Block.{SomeLaneFaults};
ghost use Rattle.lane_machine.specs.Columns.{start_of};
ghost use Rattle.lane_machine.specs.Contributions.{contributions_at, outcome_at};
ghost use Rattle.lane_machine.specs.Gathered.{AddsLanes};
ghost use Rattle.lane_machine.specs.Total.{AreFew};

use crate::block::run_block;
use crate::clear::clear;
use crate::column::LANES;
use crate::number::Faulted;
use crate::registers::Registers;
use crate::total::Total;
use lane_code::Instr;
use pf_model::{Body, Item};

/// Does instructions for all items, one block after another.
pub(crate) fn run_all(
    i: &Body,
    items: &[Item],
    steps: &[Instr],
    registers: &mut Registers,
    slots: &[u32],
    totals: &mut [Total],
) -> Result<(), Faulted>
    requires shift { All (λ x. is_shifted_little x.act ≡ true) steps.now }
    requires steps { length steps.now < 2 ^ 32 }
    requires few { length items.now ≤ 65536 }
    requires room { All (AreFew (2 ^ 55)) totals.old }
    ensures fine { OnOk result ((n : ℕ) → n < length items.now → is_some (outcome_at i.now items.now steps.now
        (start_of (vec_len registers.old.numbers) (vec_len registers.old.masks)) n) ≡ true) }
    ensures added { OnOk result (AddsLanes slots.now (contributions_at i.now items.now steps.now
        (start_of (vec_len registers.old.numbers) (vec_len registers.old.masks)))
        (length items.now) (length items.now * 2 ^ 38) totals.old totals.new) }
    ensures fault { OnErr result (SomeLaneFaults (length items.now) (outcome_at i.now items.now steps.now
        (start_of (vec_len registers.old.numbers) (vec_len registers.old.masks)))) }
    ensures numbers { vec_len registers.new.numbers ≡ vec_len registers.old.numbers }
    ensures masks { vec_len registers.new.masks ≡ vec_len registers.old.masks }
{
    let _body = *i;
    let mut first = 0;
    while first < items.len() {
        let end = items.len().min(first + LANES);
        clear(registers);
        run_block(i, &items[first..end], steps, registers, slots, totals)?;
        first = end;
    }
    Ok(())
}
