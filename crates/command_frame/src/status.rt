/// A method of a store.
#[derive(Clone, Copy, Debug, PartialEq, Eq, Hash)]
pub enum StoreCall {
    Open,
    Read,
    Create,
    Write,
    Say,
}

/// How a command ended. `R` is why an input is refused, `F` is how a step of a run fails.
#[derive(Clone, Copy, Debug, PartialEq, Eq, Hash)]
pub enum Status<R, F> {
    Done,
    /// The words make no command.
    Usage,
    /// An input is refused; nothing was written.
    Refused(R),
    /// This step has this fault.
    Numeric(u32, F),
    /// The lists of this step have more entries than the limit, namely so many.
    Lists(u32, u64),
    /// This method of the store failed.
    StoreFault(StoreCall),
    /// Memory ran out.
    Memory,
}
