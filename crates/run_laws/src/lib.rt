// Laws of thin runs: those of one rank, one group and theta 0. It stands on run_model.
#![tactic(auto)]

mod laws;

pub use laws::{
    few_particles_are_one_group, lists_without_cells_are_particles, orders_by_id_stay,
    pull_kernels_give_distances, pulls_add_up, thin_builds_are_so, thin_texts_are_thin_dumps,
};
