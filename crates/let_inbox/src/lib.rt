// Inboxes, through which ranks put parcels for one another: each names the rank that it is from and the rank
// that it is for, and is put once and taken once. It stands on pf_num and on the toolchain's crossbeam_queue.
#![tactic(auto)]

mod inbox;
mod laws;
mod named;
mod rule;
mod tokens;

pub use inbox::Inbox;
pub use laws::{
    others_are_few, others_are_the_sources, others_ascend, others_grow, others_stand_in_turn,
};
pub use named::Named;
pub use tokens::{Putter, Spent, Taker, taken};
