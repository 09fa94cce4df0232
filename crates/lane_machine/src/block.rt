ghost use Rattle.std.specs.Prelude.{◌≡◌, ◌<◌, ◌≤◌, ◌^◌, ℕ, true, OnOk, OnErr, All, length, vec_len};
ghost use Rattle.std.specs.Option.{is_some};
ghost use Rattle.lane_code.specs.Validity.{is_shifted_little};
ghost use Rattle.lane_machine.specs.Block.{SomeLaneFaults, lane_in};
ghost use Rattle.lane_machine.specs.Contributions.{contributions_in, outcome_in};
ghost use Rattle.lane_machine.specs.Gathered.{AddsLanes};
ghost use Rattle.lane_machine.specs.Total.{AreFew};

use crate::advance::advance;
use crate::column::LANES;
use crate::number::Faulted;
use crate::registers::Registers;
use crate::total::Total;
use lane_code::Instr;
use pf_model::{Body, Item};

/// Does instructions in the lanes of a block, one after another.
pub(crate) fn run_block(
    i: &Body,
    items: &[Item],
    steps: &[Instr],
    registers: &mut Registers,
    slots: &[u32],
    totals: &mut [Total],
) -> Result<(), Faulted>
    requires shift { All (λ x. is_shifted_little x.act ≡ true) steps.now }
    requires steps { length steps.now < 2 ^ 32 }
    requires few { length items.now ≤ LANES }
    requires room { All (AreFew (2 ^ 56)) totals.old }
    ensures fine { OnOk result ((l : ℕ) → l < length items.now
        → is_some (outcome_in i.now items.now steps.now registers.old l) ≡ true) }
    ensures added { OnOk result (AddsLanes slots.now (contributions_in i.now items.now steps.now registers.old)
        (length items.now) (2 ^ 38) totals.old totals.new) }
    ensures fault { OnErr result (SomeLaneFaults (length items.now) (outcome_in i.now items.now steps.now registers.old)) }
    ensures numbers { vec_len registers.new.numbers ≡ vec_len registers.old.numbers }
    ensures masks { vec_len registers.new.masks ≡ vec_len registers.old.masks }
{
    let _body = *i;
    for instr in steps {
        advance(i, items, instr, registers, slots, totals)?;
    }
    Ok(())
}
