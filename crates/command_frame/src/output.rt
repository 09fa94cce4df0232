use crate::status::Status;

/// What comes next of an output that is made in pieces.
pub enum Next<R, F> {
    Piece(Vec<u8>),
    /// No further piece comes, and the command ends so.
    End(Status<R, F>),
    /// Memory ran out.
    Memory,
}
