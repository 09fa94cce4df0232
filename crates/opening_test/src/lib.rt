// The opening test: whether a cell is far enough from a box to stand for the particles in it.
// It stands on pf_model and pf_geom.
#![tactic(auto)]

mod gap_table;
mod least_gaps;
mod test;

pub use least_gaps::LeastGaps;
pub use test::passes;
