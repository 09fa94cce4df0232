// What one rank sends another for its interaction lists: the essential tree of its particles, made of its
// octree by one pass, and where the members of each item stand. It stands on tree_lists, morton_tree and
// multisection, with the parcels' names of let_inbox, pf_model, pf_geom and the want of memory of pf_num.
#![tactic(auto)]

mod listing;
mod sending;
mod sent;
mod tree_parcel;

pub use sending::essential;
pub use sent::Sent;
pub use tree_parcel::TreeParcel;
