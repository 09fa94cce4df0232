// The half kicks and the drift of a step (leapfrog). It stands on run_model, which defines them.
#![tactic(auto)]

mod fault;
mod moves;

pub use fault::MoveFault;
pub use moves::{drift, kick};
