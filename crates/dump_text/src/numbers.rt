ghost use Rattle.std.specs.Prelude.{◌≡◌, ◌++◌, decimal, OnOk};
ghost use Rattle.std.specs.List.{flat_map};
ghost use Rattle.run_model.specs.StepText.{after_blank};

use pf_io::push_decimal;
use pf_num::OutOfMemory;

/// The label, and the number after it.
pub(crate) fn push_labelled(out: &mut Vec<u8>, label: &[u8], number: u64) -> Result<(), OutOfMemory>
    ensures { OnOk result (out.new.items ≡ out.old.items ++ (label.now ++ decimal number)) }
{
    out.extend_from_slice(label)?;
    push_decimal(out, i128::from(number))
}

/// The numbers, each after a blank.
pub(crate) fn push_numbers(out: &mut Vec<u8>, numbers: &[i64]) -> Result<(), OutOfMemory>
    ensures { OnOk result (out.new.items ≡ out.old.items ++ flat_map after_blank numbers.now) }
{
    for number in numbers {
        out.push(b' ')?;
        push_decimal(out, i128::from(*number))?;
    }
    Ok(())
}
