// A board from which seats in many threads claim the numbers below a total, each once, without a lock.
// It stands on pf_num and on the toolchain's atomic_table, whose one word counts the claims.
#![tactic(auto)]

mod board;
mod once;
mod rule;

pub use board::{Board, Seat};
pub use once::numbers_once_stand_in_some_order;
