// The moves of a run's particles: half kicks by the forces on them, and the drift between two of these. It stands on
// leapfrog, which moves one particle, and on run_model, which defines both.
#![tactic(auto)]

mod forced;
mod motion;
mod moves;

pub use forced::Forced;
pub use motion::Motion;
pub use moves::{kick_again, moved};
