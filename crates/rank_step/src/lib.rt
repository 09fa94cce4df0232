// The steps of a run: a world of all particles and of the ranks that have them, and the world after the next
// step. It stands on the exchange of exchange_phase, the trees and lists of tree_phase, which refresh_phase keeps between
// builds, the forces of force_phase and the moves of run_moves.
#![tactic(auto)]

mod build;
mod course;
mod first_ranks;
mod forces;
mod held_now;
mod keeping;
mod last_build;
mod laws;
mod refreshing;
mod told;
mod world;

pub use run_model::StepFault;
pub use world::{StepReport, World, WorldSetup};
