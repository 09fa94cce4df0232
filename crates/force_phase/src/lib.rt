// The forces of a step: those on the particles of all groups, by their lists, found by workers in threads. It stands
// on the definitions of run_model, the pairs of kern_meaning, the lists of group_lists and the boards of claim_board.
#![tactic(auto)]

mod force;
mod found;
mod gathered;
mod group_out;
mod numbered;
mod partner;
mod phase;
mod row;
mod share;
mod tally;
mod together;
mod worker;

pub use force::{Work, work_for};
pub use group_out::{GroupOut, Outcome, evaluate, out_for};
pub use phase::{Claims, IdRow, PhaseOut, forces};
pub use run_model::PhaseFault;
