// The interaction lists of the groups of one rank, while they are gathered and when they are whole. It
// stands on tree_lists, cell_runs, morton_tree and pf_model, with the cells of pf_geom and the want of memory of
// pf_num.
#![tactic(auto)]

mod absorbing;
mod changing;
mod gather;
mod item_index;
mod kept_source;
mod key_order;
mod keyed_tree;
mod laws;
mod listed;
mod lists;
mod members;
mod merging;
mod occupied;
mod ordering;
mod pieces;

pub use gather::{Gather, MOST_ENTRIES};
pub use lists::{HasLists, Lists};
