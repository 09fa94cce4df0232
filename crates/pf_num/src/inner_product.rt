ghost use Rattle.std.specs.Prelude.{◌≡◌, ◌^◌, ◌<◌, ℤ, pos, neg_ℤ, ◌+ℤ◌, ◌*ℤ◌, ◌≤ℤ◌};
ghost use Rattle.pf_num.specs.Exact.{exact};
ghost use Rattle.pf_num.specs.InnerProduct.{inner_product};

use crate::checked::narrowed;
use crate::fault::NumFault;
use std::marker::Model;

/// The inner product of `a` and `b`, or `Overflow` exactly where the exact sum isn't an `i64`.
#[tactic(auto, using(crate::proofs::HalvesLemmas::three_products))]
pub fn dot(a: [i64; 3], b: [i64; 3]) -> Result<i64, NumFault>
    ensures { result ≡ exact (inner_product a b) }
{
    let x = product(a[0], b[0]);
    let y = product(a[1], b[1]);
    let z = product(a[2], b[2]);
    sum(x, y, z)
}

/// The whole number `high * 2^64 + low`. Three products can pass 2^127 together, and with it
/// `i128`, so they are added half by half.
#[derive(Drop)]
struct Halves {
    high: i64,
    low: u64,
}

impl Model for Halves {
    ghost Value = { ℤ };

    ghost view = { λ h. h.high *ℤ pos (2 ^ 64) +ℤ pos h.low };
}

const LOW_HALF: u128 = u64::MAX as u128;

fn product(a: i64, b: i64) -> Halves
    ensures { result ≡ a *ℤ b }
{
    let whole = i128::from(a) * i128::from(b);
    Halves {
        high: (whole >> 64) as i64,
        low: (whole.cast_unsigned() & LOW_HALF) as u64,
    }
}

/// The sum as an `i64`, or `Overflow` exactly where it isn't one.
fn sum(x: Halves, y: Halves, z: Halves) -> Result<i64, NumFault>
    ensures { result ≡ exact (x +ℤ (y +ℤ z)) }
{
    let high = i128::from(x.high) + i128::from(y.high) + i128::from(z.high);
    let low = u128::from(x.low) + u128::from(y.low) + u128::from(z.low);
    joined(high, low)
}

/// `high * 2^64 + low` as an `i64`, or `Overflow` exactly where it isn't one.
fn joined(high: i128, low: u128) -> Result<i64, NumFault>
    requires high_at_least { neg_ℤ (pos (2 ^ 65)) ≤ℤ high }
    requires high_at_most { high ≤ℤ pos (2 ^ 65) }
    requires low_below { low < 2 ^ 66 }
    ensures { result ≡ exact (high *ℤ pos (2 ^ 64) +ℤ pos low) }
{
    let high = high + (low >> 64) as i128;
    if high == 0 || high == -1 {
        narrowed((high << 64) + (low & LOW_HALF) as i128)
    } else {
        Err(NumFault::Overflow)
    }
}
