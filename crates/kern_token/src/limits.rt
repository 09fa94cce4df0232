/// The most bytes that a kernel text may have.
pub const MOST_TEXT: usize = 65_536;

/// The greatest scale, a number of fraction bits.
pub const MOST_SCALE: u32 = 62;
