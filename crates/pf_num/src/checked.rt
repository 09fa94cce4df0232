#![tactic(auto, using(crate::proofs::ExactLemmas::exact_answers))]

ghost use Rattle.std.specs.Prelude.{◌≡◌, pos, ◌+ℤ◌, ◌-ℤ◌, ◌*ℤ◌, neg_ℤ, unsigned_abs};
ghost use Rattle.pf_num.specs.Exact.{exact};

use crate::fault::NumFault;

/// `a + b`, or `Overflow` exactly where the sum isn't an `i64`.
pub fn checked_add(a: i64, b: i64) -> Result<i64, NumFault>
    ensures { result ≡ exact (a +ℤ b) }
{
    a.checked_add(b).ok_or(NumFault::Overflow)
}

/// `a - b`, or `Overflow` exactly where the difference isn't an `i64`.
pub fn checked_sub(a: i64, b: i64) -> Result<i64, NumFault>
    ensures { result ≡ exact (a -ℤ b) }
{
    a.checked_sub(b).ok_or(NumFault::Overflow)
}

/// `a * b`, or `Overflow` exactly where the product isn't an `i64`.
pub fn checked_mul(a: i64, b: i64) -> Result<i64, NumFault>
    ensures { result ≡ exact (a *ℤ b) }
{
    narrowed(i128::from(a) * i128::from(b))
}

/// `-a`, or `Overflow` exactly at `i64::MIN`.
pub fn checked_neg(a: i64) -> Result<i64, NumFault>
    ensures { result ≡ exact (neg_ℤ a) }
{
    a.checked_neg().ok_or(NumFault::Overflow)
}

/// The magnitude of `a`, or `Overflow` exactly at `i64::MIN`.
pub fn checked_abs(a: i64) -> Result<i64, NumFault>
    ensures { result ≡ exact (pos (unsigned_abs a)) }
{
    a.checked_abs().ok_or(NumFault::Overflow)
}

/// A whole number of up to 128 bits as an `i64`, or `Overflow` exactly where it isn't one.
pub(crate) fn narrowed(value: i128) -> Result<i64, NumFault>
    ensures { result ≡ exact value }
{
    i64::try_from(value).or(Err(NumFault::Overflow))
}
