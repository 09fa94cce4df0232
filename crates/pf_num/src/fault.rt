ghost use Rattle.std.specs.Prelude.{Some};
ghost use Rattle.pf_num.specs.FaultText.{text_of};

use std::error::Error;
use std::fmt;

/// Why an operation on whole numbers has no answer in an `i64`.
#[derive(Clone, Copy, Debug, PartialEq, Eq, Hash)]
pub enum NumFault {
    /// The exact value lies outside of an `i64`.
    Overflow,
    /// The divisor is 0.
    ZeroDivisor,
    /// The square root of a negative number was asked for.
    NegativeRoot,
}

impl fmt::Display for NumFault {
    ghost output = { λ fault. Some (text_of fault) };

    fn fmt<W: fmt::Write>(&self, f: &mut fmt::Formatter<W>) -> fmt::Result {
        f.write_str(match self {
            NumFault::Overflow => "overflow",
            NumFault::ZeroDivisor => "division by zero",
            NumFault::NegativeRoot => "root of a negative number",
        })
    }
}

impl Error for NumFault {}
