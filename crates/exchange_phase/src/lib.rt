// The exchange of a build, with the ranks in workers: each leaves in one phase, and settles in the next. It stands on
// the ranks of exchange, the posts of all_to_all and the workers of rank_workers.
#![tactic(auto)]

mod arriving;
mod laws;
mod leaving;
mod phases;

pub use laws::ranks_by_number_have_together;
pub use phases::exchanged;
