#![tactic(auto, using(crate::proofs::SquareRootLemmas::exact_roots))]

ghost use Rattle.std.specs.Prelude.{◌≡◌, ◌^◌, ◌<◌};
ghost use Rattle.pf_num.specs.SquareRoot.{IsFloorRoot, floor_root, exact_root};

use crate::fault::NumFault;

/// The greatest `r` with `r * r <= x`.
pub fn isqrt(x: u64) -> u64
    ensures root { IsFloorRoot x result }
    ensures value { result ≡ floor_root x }
    ensures bound { result < 2 ^ 32 }
{
    x.isqrt()
}

/// The greatest `r` with `r * r <= x`, or `NegativeRoot` exactly where `x` is negative.
pub fn root(x: i64) -> Result<i64, NumFault>
    ensures { result ≡ exact_root x }
{
    if x < 0 {
        return Err(NumFault::NegativeRoot);
    }
    Ok(isqrt(x as u64) as i64)
}
