ghost use Rattle.std.specs.Prelude.{◌≡◌};

use std::alloc::{AllocError, AllocFailed};
use std::error::Error;
use std::fmt;

/// Why a particle file is refused. Lines and columns are counted from 1.
#[derive(Clone, Copy, Debug, PartialEq, Eq, Hash)]
pub enum PartFault {
    /// The first line that isn't skipped isn't `particles 1`, or there is none.
    Header,
    /// The second line that isn't skipped isn't `count` and digits, or there is none.
    Count,
    /// The count is more than 65,536.
    TooMany,
    /// In this line and column a field is missing, is no number, or is a thirteenth.
    Field(u32, u32),
    /// In this line and column the number is past its limits.
    Range(u32, u32),
    /// The text ends with fewer particles than the count says. The line is the one after the last.
    Short(u32),
    /// This line stands after the last particle.
    Trailing(u32),
    /// An earlier particle has the id of the one in this line.
    DuplicateId(u32),
    /// Memory ran out. No contract ties it to a cause.
    Memory,
}

impl fmt::Display for PartFault {
    ghost use Rattle.std.specs.Prelude.{Some};
    ghost use Rattle.particle_file.specs.FaultText.{particle_fault_text};

    ghost output = { λ fault. Some (particle_fault_text fault) };

    fn fmt<W: fmt::Write>(&self, f: &mut fmt::Formatter<W>) -> fmt::Result {
        match self {
            PartFault::Header => f.write_str("Header"),
            PartFault::Count => f.write_str("Count"),
            PartFault::TooMany => f.write_str("TooMany"),
            PartFault::Field(line, column) => write!(f, "Field line {line} column {column}"),
            PartFault::Range(line, column) => write!(f, "Range line {line} column {column}"),
            PartFault::Short(line) => write!(f, "Short line {line}"),
            PartFault::Trailing(line) => write!(f, "Trailing line {line}"),
            PartFault::DuplicateId(line) => write!(f, "DuplicateId line {line}"),
            PartFault::Memory => f.write_str("out of memory"),
        }
    }
}

impl Error for PartFault {}

impl From<AllocError> for PartFault {
    ghost use Rattle.particle_file.specs.declared.fault.PartFault.TheVariants.{Memory};

    ghost from_gives = { λ _ fault. fault ≡ Memory };

    fn from(_error: AllocError) -> Self {
        PartFault::Memory
    }
}

impl<T: Drop> From<AllocFailed<T>> for PartFault {
    ghost use Rattle.particle_file.specs.declared.fault.PartFault.TheVariants.{Memory};

    ghost from_gives = { λ _ fault. fault ≡ Memory };

    fn from(_error: AllocFailed<T>) -> Self {
        PartFault::Memory
    }
}
