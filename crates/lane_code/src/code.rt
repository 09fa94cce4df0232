ghost use Rattle.std.specs.Prelude.{◌≡◌, ◌^◌, ◌<◌, None, Some, IfOk, OnOk, IfErr, length};
ghost use Rattle.lane_code.specs.Validity.{first_breach};

use crate::Instructions;
use crate::rules::is_fine;
use std::marker::Model;

/// A code that nobody has looked at: how many registers and slots its instructions may name, and the instructions.
#[derive(Debug, Drop)]
pub struct RawCode {
    /// Number registers hold an `i64` in each lane, at first 0.
    pub numbers: u32,
    /// Mask registers hold a truth value in each lane, at first false. Mask 0 is true in each lane that has an item.
    pub masks: u32,
    /// A slot stands for a statement `+=`.
    pub slots: u32,
    pub steps: Instructions,
}

/// A code that is valid.
#[derive(Debug, Drop)]
pub struct Code {
    pub raw: RawCode,
}

impl Model for Code {
    ghost use Rattle.std.specs.Prelude.{◌≡◌, None};
    ghost use Rattle.lane_code.specs.declared.code.RawCode.{RawCode};
    ghost use Rattle.lane_code.specs.contracts.code.RawCode.{the_row};
    ghost use Rattle.lane_code.specs.Validity.{first_breach};

    ghost Value = { RawCode };

    ghost coded = { the_row.coded };

    ghost view = { λ c. c.raw };

    ghost invariant = { λ c. first_breach c.raw ≡ None };
}

/// The place of the first instruction that breaks a rule of valid codes, from 0.
#[derive(Clone, Copy, Debug, PartialEq, Eq)]
pub struct BadCode(pub u32);

/// The code, where it is valid, or else its first instruction that breaks a rule.
pub fn validate(raw: RawCode) -> Result<Code, BadCode>
    requires { length raw.steps < 2 ^ 32 }
    ensures code { IfOk result (λ code. code ≡ raw) }
    ensures valid { OnOk result (first_breach raw ≡ None) }
    ensures breach { IfErr result (λ bad. first_breach raw ≡ Some bad.0) }
{
    let steps = raw.steps.as_slice();
    for (n, instr) in steps.iter().enumerate() {
        if !is_fine(&raw, &steps[..n], instr) {
            return Err(BadCode(n as u32));
        }
    }
    Ok(Code { raw })
}
