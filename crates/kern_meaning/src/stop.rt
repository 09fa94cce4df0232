use crate::PairFault;
use pf_num::NumFault;

/// Why an expression has no value.
#[derive(Clone, Copy, Debug, PartialEq, Eq, Hash)]
pub enum Stop {
    Fault(NumFault),
    /// Operands are of kinds or scales for which the form has no result. A typed kernel never meets it.
    NoResult,
}

/// Why statements don't end.
#[derive(Clone, Copy, Debug, PartialEq, Eq, Hash)]
pub enum PairStop {
    Fault(PairFault),
    /// A typed kernel never meets it.
    NoResult,
}
