// The octree of one rank: its particles in the order of the Morton curve, where those of each cell stand
// together; their moments, and the groups that share an interaction list. It stands on moments and
// pf_model, with the cells of pf_geom and the want of memory of pf_num, and sorts with rayon.
#![tactic(auto)]

mod group;
mod groups;
mod placed;
mod sorting;
mod span;
mod tree;

pub use group::Group;
pub use span::Span;
pub use tree::Tree;
