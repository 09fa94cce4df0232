/// The most brackets that may be open at a place of a kernel text.
pub const MOST_OPEN: u32 = 32;

/// The most nodes that a kernel may have.
pub const MOST_NODES: u32 = 512;
