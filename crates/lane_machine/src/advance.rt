ghost use Rattle.std.specs.Prelude.{◌≡◌, ◌<◌, ◌≤◌, ◌^◌, ℕ, Some, true, OnOk, OnErr, All, length, vec_len};
ghost use Rattle.lane_code.specs.Outcome.{given_by};
ghost use Rattle.lane_code.specs.Validity as rules;
ghost use Rattle.lane_machine.specs.Block.{SomeLaneFaults, lane_in, step_in};
ghost use Rattle.lane_machine.specs.Gathered.{AddsLanes};
ghost use Rattle.lane_machine.specs.Total.{AreFew};

use crate::column::LANES;
use crate::give::give;
use crate::mask::write_mask;
use crate::number::{Faulted, write_number};
use crate::registers::Registers;
use crate::total::Total;
use lane_code::{Instr, Lane};
use pf_model::{Body, Item};

/// Does an instruction in the lanes of a block.
pub(crate) fn advance(
    i: &Body,
    items: &[Item],
    instr: &Instr,
    registers: &mut Registers,
    slots: &[u32],
    totals: &mut [Total],
) -> Result<(), Faulted>
    requires shift { rules.is_shifted_little instr.now.act ≡ true }
    requires few { length items.now ≤ LANES }
    requires room { All (AreFew (2 ^ 57)) totals.old }
    ensures lanes { OnOk result ((l : ℕ) → l < length items.now
        → step_in i.now items.now instr.now registers.old l ≡ Some (lane_in registers.new l)) }
    ensures added { OnOk result (AddsLanes slots.now (λ l. given_by instr.now (lane_in registers.old l)) (length items.now)
        LANES totals.old totals.new) }
    ensures fault { OnErr result (SomeLaneFaults (length items.now) (step_in i.now items.now instr.now registers.old)) }
    ensures numbers { vec_len registers.new.numbers ≡ vec_len registers.old.numbers }
    ensures masks { vec_len registers.new.masks ≡ vec_len registers.old.masks }
{
    if makes_number(&instr.act) {
        let numbers = registers.numbers.as_mut_slice();
        write_number(
            i,
            items,
            instr,
            numbers,
            &registers.masks,
            &mut registers.spare,
        )
    } else if makes_mask(&instr.act) {
        let masks = registers.masks.as_mut_slice();
        write_mask(
            i,
            items,
            instr,
            &registers.numbers,
            masks,
            &mut registers.spare_mask,
        );
        Ok(())
    } else {
        let _body = *i;
        give(items.len(), instr, registers, slots, totals);
        Ok(())
    }
}

fn makes_mask(act: &Lane) -> bool
    ensures { result ≡ rules.makes_mask act.now }
{
    matches!(
        act,
        Lane::Compare(_, _, _) | Lane::And(_, _) | Lane::AndNot(_, _) | Lane::Or(_, _)
    )
}

fn makes_number(act: &Lane) -> bool
    ensures { result ≡ rules.makes_number act.now }
{
    match act {
        Lane::Give(_, _, _) => false,
        _ => !makes_mask(act),
    }
}
