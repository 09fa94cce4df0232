// The phases Trees and Gather of a build, on threads: each rank builds its tree, sends every other rank its essential
// tree through inboxes, and makes its lists of all that come. It stands on the inboxes of all_to_all, the workers of
// rank_workers, the trees of morton_tree and essential_tree, and the lists of group_lists.
#![tactic(auto)]

mod absorbing;
mod arrivals;
mod counts;
mod gathering;
mod growing;
mod phases;
mod rank_gather;
mod rank_lists;
mod rank_tree;
mod sending;

pub use arrivals::Arrivals;
pub use phases::{Gathered, gather_all};
pub use rank_gather::RankGather;
pub use rank_lists::RankLists;
pub use rank_tree::RankTree;
