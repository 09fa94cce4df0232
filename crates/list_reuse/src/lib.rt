// The lists of a build, kept while their particles move: what ranks send one another again, and the lists with the
// present moments and bodies. It stands on group_lists and essential_tree, with the octrees of morton_tree, the
// parcels' names of let_inbox, pf_model, pf_geom and the want of memory of pf_num.
#![tactic(auto)]

mod keeping_laws;
mod kept;
mod laws;
mod refresh;
mod refreshing;
mod renewing;
mod values;

pub use keeping_laws::{
    lists_of_a_build_are_kept, moved_bodies_are_present, refreshed_values_are_present,
};
pub use kept::Kept;
pub use refresh::Refresh;
pub use refreshing::refreshed;
