#![tactic(auto, using(crate::proofs::ScaleLemmas::scales))]

ghost use Rattle.std.specs.Prelude.{◌≡◌, ◌≤◌, ◌<◌, ◌^◌, pos, int_div};
ghost use Rattle.pf_num.specs.Exact.{exact};
ghost use Rattle.pf_num.specs.Scale.{rescaled};

use crate::checked::narrowed;
use crate::fault::NumFault;

/// `x`, which counts parts of `1 / 2^from`, in parts of `1 / 2^to`, both at most 62: times a power
/// of two, or the quotient by one toward zero. `Overflow` exactly where that isn't an `i64`.
pub fn rescale(x: i64, from: u32, to: u32) -> Result<i64, NumFault>
    requires from_in_range { from ≤ 62 }
    requires to_in_range { to ≤ 62 }
    ensures { result ≡ exact (rescaled x from to) }
{
    if from <= to {
        narrowed(i128::from(x) << (to - from))
    } else {
        Ok(halved(x, from - to))
    }
}

/// `x / 2^times` toward zero. A shift rounds down, so it is the magnitude that is shifted.
fn halved(x: i64, times: u32) -> i64
    requires some { 0 < times }
    requires few { times ≤ 62 }
    ensures { result ≡ int_div x (pos (2 ^ times)) }
{
    let size = (x.unsigned_abs() >> times) as i64;
    if x < 0 { -size } else { size }
}
