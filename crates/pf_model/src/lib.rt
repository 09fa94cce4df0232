// What the method speaks of: particles, moments, lists, and the definitions over them.
#![tactic(auto)]

mod body;
mod entry;
mod ess_tree;
mod field;
mod grid;
mod item;
mod least_box;
mod limits;
mod moment;
mod plain_group;
mod plain_list;
mod steps;
mod terms;
mod theta;

pub use body::Body;
pub use entry::Entry;
pub use ess_tree::EssTree;
pub use field::Field;
pub use grid::Grid;
pub use item::Item;
pub use least_box::box_of;
pub use limits::{MOST_GROUP, MOST_PARTICLES, MOST_RANKS};
pub use moment::Moment;
pub use plain_group::{slow_group, slow_group_cell, slow_group_cells, slow_members};
pub use plain_list::slow_list;
pub use steps::Steps;
pub use terms::{Build, Terms};
pub use theta::Theta;
