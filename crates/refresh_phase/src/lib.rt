// The phases Trees and Gather of a step without a build, on threads: each rank moves its octree with its particles, sends
// every other rank the present values of the essential tree of the build, and renews its lists by all that come. It
// stands on list_reuse, the trees and lists of tree_phase, the inboxes of all_to_all and the workers of rank_workers.
#![tactic(auto)]

mod kept_rank;
mod laws;
mod moving;
mod phases;
mod present;
mod renewing;

pub use kept_rank::KeptRank;
pub use laws::{builds_begin_as_kept, kept_groups_have_their_lists};
pub use phases::{Refreshed, refresh_all};
pub use present::present_bodies;
