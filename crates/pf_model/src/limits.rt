/// The most particles of a run.
pub const MOST_PARTICLES: u32 = 65_536;

/// The most ranks that the cube is divided among.
pub const MOST_RANKS: u32 = 64;

/// The greatest group limit.
pub const MOST_GROUP: u32 = 65_536;
