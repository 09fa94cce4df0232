// Moments of particles: of one, of two parts together, of any range of a list; and what a kernel sees of
// them. It stands on pf_model, with the points of pf_geom and the want of memory of pf_num.
#![tactic(auto)]

mod moment;
mod prefix;
mod source;

pub use moment::{merge, of_one};
pub use prefix::{Prefix, prefix_of, prefix_over};
pub use source::{centre, item};
