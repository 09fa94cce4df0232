// Plain executors of the definitions, for tests: who owns what, essential trees, and the steps of a run, each by its
// definition and in no hurry. It stands on run_model and pf_model, and on the pairs of kern_meaning.
#![tactic(auto)]

mod counts;
mod cutting;
mod domains;
mod essential;
mod forces;
mod kept;
mod listing;
mod ordering;
mod run;
mod setup;
mod state;

pub use domains::{slow_domain_box, slow_owner};
pub use essential::slow_essential;
pub use forces::{ForceStop, slow_forces};
pub use run::{slow_step, slow_text};
pub use setup::RunSetup;
