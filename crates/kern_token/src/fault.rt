ghost use Rattle.std.specs.Prelude.{◌≡◌};

use std::alloc::{AllocError, AllocFailed};
use std::error::Error;
use std::fmt;

/// Why a kernel text is refused. The number is a place in the text: a count of bytes from 0.
#[derive(Clone, Copy, Debug, PartialEq, Eq, Hash)]
pub enum KernFault {
    /// No token begins with the byte here.
    BadByte(u32),
    /// The number that begins here is 2^63 or more.
    NumberTooLarge(u32),
    /// The grammar doesn't go on with the token here.
    Unexpected(u32),
    /// The bracket here makes 33 that are open.
    TooDeep(u32),
    /// The node of the token here is the 513th.
    TooManyNodes(u32),
    /// Memory ran out. No contract ties it to a cause.
    Memory,
}

impl fmt::Display for KernFault {
    ghost use Rattle.std.specs.Prelude.{Some};
    ghost use Rattle.kern_token.specs.FaultText.{kernel_fault_text};

    ghost output = { λ fault. Some (kernel_fault_text fault) };

    fn fmt<W: fmt::Write>(&self, f: &mut fmt::Formatter<W>) -> fmt::Result {
        match self {
            KernFault::BadByte(place) => write!(f, "BadByte at {place}"),
            KernFault::NumberTooLarge(place) => write!(f, "NumberTooLarge at {place}"),
            KernFault::Unexpected(place) => write!(f, "Unexpected at {place}"),
            KernFault::TooDeep(place) => write!(f, "TooDeep at {place}"),
            KernFault::TooManyNodes(place) => write!(f, "TooManyNodes at {place}"),
            KernFault::Memory => f.write_str("out of memory"),
        }
    }
}

impl Error for KernFault {}

impl From<AllocError> for KernFault {
    ghost use Rattle.kern_token.specs.declared.fault.KernFault.TheVariants.{Memory};

    ghost from_gives = { λ _ fault. fault ≡ Memory };

    fn from(_error: AllocError) -> Self {
        KernFault::Memory
    }
}

impl<T: Drop> From<AllocFailed<T>> for KernFault {
    ghost use Rattle.kern_token.specs.declared.fault.KernFault.TheVariants.{Memory};

    ghost from_gives = { λ _ fault. fault ≡ Memory };

    fn from(_error: AllocFailed<T>) -> Self {
        KernFault::Memory
    }
}
