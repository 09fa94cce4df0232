// The text of a step's dump, written.
#![tactic(auto)]

mod numbers;
mod writing;

pub use writing::write_step;
