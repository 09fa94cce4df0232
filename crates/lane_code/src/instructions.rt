ghost use Rattle.std.specs.Prelude.{◌≡◌};
ghost use Rattle.lane_code.specs.declared.instruction.Instr.{Instr};

use crate::Instr;
use std::marker::Model;

/// The instructions of a code, in order. Contracts see them as a list, so that a code can be compared whole.
#[derive(Debug, Drop)]
pub struct Instructions {
    steps: Vec<Instr>,
}

impl Model for Instructions {
    ghost use Rattle.std.specs.Prelude.{List};
    ghost use Rattle.std.specs.Coded.{coded_list};
    ghost use Rattle.lane_code.specs.declared.instruction.Instr.{Instr};
    ghost use Rattle.lane_code.specs.contracts.instruction.Instr.{the_row};

    ghost Value = { List Instr };

    ghost coded = { coded_list the_row.coded };

    ghost view = { λ s. s.steps.items };
}

impl Instructions {
    /// The instructions of a `Vec`. It takes no memory.
    pub fn from_vec(steps: Vec<Instr>) -> Instructions
        ensures { result ≡ steps.items }
    {
        Instructions { steps }
    }

    /// The instructions as a `Vec`. It takes no memory.
    pub fn into_vec(self) -> Vec<Instr>
        ensures { result.items ≡ self }
    {
        let Instructions { steps } = self;
        steps
    }

    pub fn as_slice(&self) -> &[Instr]
        ensures { result.now ≡ self.now }
    {
        self.steps.as_slice()
    }
}
