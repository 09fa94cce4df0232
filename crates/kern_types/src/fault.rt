ghost use Rattle.std.specs.Prelude.{◌≡◌};

use std::alloc::{AllocError, AllocFailed};
use std::error::Error;
use std::fmt;

/// Why a kernel isn't well typed. The number is a place in its text: a count of bytes from 0.
#[derive(Clone, Copy, Debug, PartialEq, Eq, Hash)]
pub enum TypeFault {
    /// No declaration and no earlier assignment has the name, or there is no such field.
    Unknown(u32),
    /// The name is declared already.
    Twice(u32),
    /// A num, a vec or a condition stands where another kind is required.
    Kind(u32),
    /// The scales of operands don't fit, or a result would have a scale outside 0 to 62.
    Scale(u32),
    /// Some path from the start to here doesn't assign the name.
    Unassigned(u32),
    /// There is no `FORCE vec S16 acc sum`. The place is that of the declaration of `acc`, or else 0.
    NoAcc(u32),
    /// Memory ran out. No contract ties it to a cause.
    Memory,
}

impl fmt::Display for TypeFault {
    ghost use Rattle.std.specs.Prelude.{Some};
    ghost use Rattle.kern_types.specs.FaultText.{type_fault_text};

    ghost output = { λ fault. Some (type_fault_text fault) };

    fn fmt<W: fmt::Write>(&self, f: &mut fmt::Formatter<W>) -> fmt::Result {
        match self {
            TypeFault::Unknown(place) => write!(f, "Unknown at {place}"),
            TypeFault::Twice(place) => write!(f, "Twice at {place}"),
            TypeFault::Kind(place) => write!(f, "Kind at {place}"),
            TypeFault::Scale(place) => write!(f, "Scale at {place}"),
            TypeFault::Unassigned(place) => write!(f, "Unassigned at {place}"),
            TypeFault::NoAcc(place) => write!(f, "NoAcc at {place}"),
            TypeFault::Memory => f.write_str("out of memory"),
        }
    }
}

impl Error for TypeFault {}

impl From<AllocError> for TypeFault {
    ghost use Rattle.kern_types.specs.declared.fault.TypeFault.TheVariants.{Memory};

    ghost from_gives = { λ _ fault. fault ≡ Memory };

    fn from(_error: AllocError) -> Self {
        TypeFault::Memory
    }
}

impl<T: Drop> From<AllocFailed<T>> for TypeFault {
    ghost use Rattle.kern_types.specs.declared.fault.TypeFault.TheVariants.{Memory};

    ghost from_gives = { λ _ fault. fault ≡ Memory };

    fn from(_error: AllocFailed<T>) -> Self {
        TypeFault::Memory
    }
}
