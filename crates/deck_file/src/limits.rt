/// The most bytes of a file's name.
pub const MOST_NAME: usize = 255;

/// The most steps of a run.
pub const MOST_STEPS: u32 = 1_000_000;

/// The greatest length of a step in time.
pub const MOST_DT: u32 = 65_536;

/// The most steps for which lists are kept.
pub const MOST_REUSE: u32 = 1_024;
