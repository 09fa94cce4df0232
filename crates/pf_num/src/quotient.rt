ghost use Rattle.std.specs.Prelude.{◌≡◌, ◌*ℤ◌, IfOk};
ghost use Rattle.pf_num.specs.Quotient.{exact_quotient, IsTruncatedQuotient};

use crate::checked::narrowed;
use crate::fault::NumFault;

/// `a / b` toward zero: `ZeroDivisor` exactly where `b` is 0, `Overflow` exactly at
/// `i64::MIN / -1`.
#[tactic(auto, using(crate::proofs::QuotientLemmas::narrow_quotients))]
pub fn checked_div(a: i64, b: i64) -> Result<i64, NumFault>
    ensures answer { result ≡ exact_quotient a b }
    ensures truncated { IfOk result (IsTruncatedQuotient a b) }
{
    if b == 0 {
        return Err(NumFault::ZeroDivisor);
    }
    a.checked_div(b).ok_or(NumFault::Overflow)
}

/// `a * b / c` toward zero, from the exact product: `ZeroDivisor` exactly where `c` is 0,
/// `Overflow` exactly where it isn't and the quotient isn't an `i64`.
#[tactic(auto, using(crate::proofs::QuotientLemmas::wide_quotients))]
pub fn muldiv(a: i64, b: i64, c: i64) -> Result<i64, NumFault>
    ensures answer { result ≡ exact_quotient (a *ℤ b) c }
    ensures truncated { IfOk result (IsTruncatedQuotient (a *ℤ b) c) }
{
    if c == 0 {
        return Err(NumFault::ZeroDivisor);
    }
    narrowed(i128::from(a) * i128::from(b) / i128::from(c))
}
