use crate::sequence::Sequence;
use pf_geom::Point;

/// The force numbers of a particle in order of declaration: one for each `num`, three for each `vec`.
pub type Row = Sequence<i64>;

/// What the dump of a step tells.
#[derive(Debug, Drop)]
pub struct StepText {
    pub step: u32,
    /// By rank, from 0.
    pub ranks: Sequence<RankLine>,
    /// By ascending id.
    pub rows: Sequence<BodyLine>,
}

/// The counts of a rank at the last build.
#[derive(Clone, Copy, Debug, PartialEq, Eq)]
pub struct RankLine {
    pub particles: u32,
    pub groups: u32,
    /// The cells in the essential trees that it received.
    pub cells: u32,
    /// The particles in these trees.
    pub parts: u32,
    /// The cells in the interaction lists of its groups, each list by itself.
    pub listcells: u64,
    /// The particles in these lists.
    pub listparts: u64,
}

/// A particle after the step.
#[derive(Debug, Drop)]
pub struct BodyLine {
    pub id: u32,
    /// The rank that owned it at the last build.
    pub owner: u32,
    pub at: Point,
    /// Along x, y and z, with 16 fraction bits.
    pub vel: [i64; 3],
    pub forces: Row,
}
