/// Why a pair has no contributions.
#[derive(Clone, Copy, Debug, PartialEq, Eq, Hash)]
pub enum PairKind {
    /// The exact value of a node, or of a component of it, isn't an `i64`.
    Overflow,
    /// The divisor is 0, and the item's centre isn't the particle's position.
    ZeroDivisor,
    /// The divisor is 0, and the item's centre is the particle's position.
    Coincident,
    /// The square root of a negative number was asked for.
    NegativeRoot,
}

/// The first fault of a pair, and the number of the statement in whose own expression it arises.
/// Statements count from 1 in text order, an `if` before the statements in it.
#[derive(Clone, Copy, Debug, PartialEq, Eq, Hash)]
pub struct PairFault {
    pub kind: PairKind,
    pub statement: u32,
}
