use kern_tree::Kind;

/// Three number registers, along x, y and z. Those of a num are one and the same.
#[derive(Clone, Copy, Debug, PartialEq, Eq)]
pub(crate) struct Registers {
    pub(crate) x: u32,
    pub(crate) y: u32,
    pub(crate) z: u32,
}

/// Where a value stands. The `u32` of `Scaled` is its scale.
#[derive(Clone, Copy, Debug, PartialEq, Eq)]
pub(crate) enum Place {
    Scaled(Kind, u32, Registers),
    /// The mask register.
    Condition(u32),
}
