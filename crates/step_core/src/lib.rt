// The pure core of a build: every legal list of events, by which essential trees reach their ranks and workers claim
// and finish groups. It stands on pf_model, with the points of pf_geom and the want of memory of pf_num.
#![tactic(auto)]

mod cuts;
mod cutting;
mod event;
mod grouping;
mod laws;
mod ordering;
mod progress;
mod scene;
mod sequence;
mod setup;
mod site;
mod the_core;

pub use event::Event;
pub use laws::{
    ends_are_alike, ends_finish_each_group_once, ends_have_whole_lists,
    held_groups_have_their_lists, runs_are_short,
};
pub use setup::{MOST_WORKERS, Setup};
pub use the_core::Core;
