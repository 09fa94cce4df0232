ghost use Rattle.std.specs.Prelude.{◌≡◌, ◌++◌, OnOk, OnErr};
ghost use Rattle.std.specs.Fmt.{signed_decimal};

use itoa::Buffer;
use pf_num::OutOfMemory;

/// Appends the number as digits, after a minus where it is below 0.
pub fn push_decimal(out: &mut Vec<u8>, n: i128) -> Result<(), OutOfMemory>
    ensures pushed { OnOk result (out.new.items ≡ out.old.items ++ signed_decimal n) }
    ensures err { OnErr result (out.new.items ≡ out.old.items) }
{
    let mut buffer = Buffer::new();
    out.extend_from_slice(buffer.format(n).as_bytes())?;
    Ok(())
}
