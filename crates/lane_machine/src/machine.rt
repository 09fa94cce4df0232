ghost use Rattle.std.specs.Prelude.{◌≡◌, ◌<◌, ◌^◌, true, All, length};
ghost use Rattle.lane_code.specs.Validity.{is_shifted_little};

use crate::number::Faulted;
use crate::registers::Registers;
use crate::sums::Sums;
use lane_code::{Code, Instr, each_instruction_is_fine};
use pf_model::{Body, Item};
use pf_num::OutOfMemory;
use std::alloc::Global;

/// Runs a code, in blocks of lanes. It keeps the registers of the last block.
#[derive(Debug, PartialEq, Drop)]
pub struct Machine {
    pub(crate) steps: Vec<Instr>,
    pub(crate) slots: u32,
    pub(crate) registers: Registers,
    ghost few: { length steps.items < 2 ^ 32 },
    ghost shifted: { All (λ x. is_shifted_little x.act ≡ true) steps.items },
}

impl Machine {
    ghost use Rattle.std.specs.Prelude.{◌+◌, ◌≤◌, IfOk, OnOk, OnErr};
    ghost use Rattle.std.specs.Option.{is_some};
    ghost use Rattle.lane_code.specs.Outcome.{lane_answer};
    ghost use Rattle.lane_machine.specs.Machine.{SomeItemFaults, code_of};
    ghost use Rattle.lane_machine.specs.Sums.{AddsItems};

    /// Room for a code. A code of 2^32 instructions or more, which no memory holds, is out of memory.
    pub fn new(alloc: Global, code: &Code) -> Result<Machine, OutOfMemory>
        ensures { IfOk result (λ machine. code_of machine ≡ code.now) }
    {
        each_instruction_is_fine();
        let raw = &code.raw;
        let steps = raw.steps.as_slice();
        if steps.len() > u32::MAX as usize {
            return Err(OutOfMemory);
        }
        let steps = steps.to_vec(alloc)?;
        let registers = Registers::new(alloc, raw.numbers, raw.masks)?;
        Ok(Machine {
            steps,
            slots: raw.slots,
            registers,
        })
    }

    /// Adds to sums, or compares with them, what the code gives for a particle and each of these items. `Faulted` exactly
    /// where it faults for some item; the sums are then as before. It takes no memory.
    pub fn run(&mut self, i: &Body, items: &[Item], sums: &mut Sums) -> Result<(), Faulted>
        requires { sums.old.items + length items.now ≤ 65536 }
        ensures code { code_of self.new ≡ code_of self.old }
        ensures fine { OnOk result (All (λ j. is_some (lane_answer (code_of self.old) i.now j) ≡ true) items.now) }
        ensures added { OnOk result (AddsItems (code_of self.old) i.now items.now sums.old sums.new) }
        ensures fault { OnErr result (SomeItemFaults (code_of self.old) i.now items.now) }
        ensures kept { OnErr result (sums.new ≡ sums.old) }
    {
        sums.run(i, items, &self.steps, &mut self.registers)
    }
}
