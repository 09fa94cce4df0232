// The interaction list of a box over the bodies of an octree, by one pass over their keys, and where the members
// of each entry stand. It stands on cell_runs, morton_tree, pf_model and pf_geom, with the want of memory of pf_num.
#![tactic(auto)]

mod listing;
mod piece;
mod pieces;

pub use listing::list_over;
