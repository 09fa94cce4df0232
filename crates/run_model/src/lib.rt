// What a run is: forces, steps, the text of a step and the first fault. It stands on the meaning of
// pairs, kern_meaning, and on the lists of pf_model.
#![tactic(auto)]

mod fault;
mod laws;
mod seen;
mod sequence;
mod step_text;

pub use fault::{Fault, PhaseFault, StepFault, What};
pub use laws::{
    each_is_in_one_entry_of_each_list, grids_change_owners_alone, lone_ranks_build_so,
    runs_ignore_the_order_read, states_keep_the_limits, states_keep_the_particles,
    states_stand_before_the_end,
};
pub use seen::{exerted, received};
pub use sequence::Sequence;
pub use step_text::{BodyLine, RankLine, Row, StepText};
