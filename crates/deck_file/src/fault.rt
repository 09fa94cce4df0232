ghost use Rattle.std.specs.Prelude.{◌≡◌};

use std::alloc::{AllocError, AllocFailed};
use std::error::Error;
use std::fmt;

/// A key that a deck can't do without.
#[derive(Clone, Copy, Debug, PartialEq, Eq, Hash)]
pub enum Key {
    Kernel,
    Particles,
    Out,
}

impl fmt::Display for Key {
    ghost use Rattle.std.specs.Prelude.{Some};
    ghost use Rattle.deck_file.specs.FaultText.{key_text};

    ghost output = { λ key. Some (key_text key) };

    fn fmt<W: fmt::Write>(&self, f: &mut fmt::Formatter<W>) -> fmt::Result {
        f.write_str(match self {
            Key::Kernel => "kernel",
            Key::Particles => "particles",
            Key::Out => "out",
        })
    }
}

/// Why a deck is refused. The number is that of a line, from 1.
#[derive(Clone, Copy, Debug, PartialEq, Eq, Hash)]
pub enum DeckFault {
    /// The line begins with no key.
    UnknownKey(u32),
    /// An earlier line has the key.
    Twice(u32),
    /// The key hasn't exactly one value, or the value isn't of the key's form.
    Value(u32),
    /// No line has the key.
    Missing(Key),
    /// Lists can't be kept in a periodic box.
    Reuse,
    /// Memory ran out. No contract ties it to a cause.
    Memory,
}

impl fmt::Display for DeckFault {
    ghost use Rattle.std.specs.Prelude.{Some};
    ghost use Rattle.deck_file.specs.FaultText.{deck_fault_text};

    ghost output = { λ fault. Some (deck_fault_text fault) };

    fn fmt<W: fmt::Write>(&self, f: &mut fmt::Formatter<W>) -> fmt::Result {
        match self {
            DeckFault::UnknownKey(line) => write!(f, "UnknownKey line {line}"),
            DeckFault::Twice(line) => write!(f, "Twice line {line}"),
            DeckFault::Value(line) => write!(f, "Value line {line}"),
            DeckFault::Missing(key) => write!(f, "Missing {key}"),
            DeckFault::Reuse => f.write_str("Reuse"),
            DeckFault::Memory => f.write_str("out of memory"),
        }
    }
}

impl Error for DeckFault {}

impl From<AllocError> for DeckFault {
    ghost use Rattle.deck_file.specs.declared.fault.DeckFault.TheVariants.{Memory};

    ghost from_gives = { λ _ fault. fault ≡ Memory };

    fn from(_error: AllocError) -> Self {
        DeckFault::Memory
    }
}

impl<T: Drop> From<AllocFailed<T>> for DeckFault {
    ghost use Rattle.deck_file.specs.declared.fault.DeckFault.TheVariants.{Memory};

    ghost from_gives = { λ _ fault. fault ≡ Memory };

    fn from(_error: AllocFailed<T>) -> Self {
        DeckFault::Memory
    }
}
