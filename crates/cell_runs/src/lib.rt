// The cells that a list takes, over positions in key order: one pass finds which positions stand together
// because they lead to one cell. It stands on opening_test, pf_model and pf_geom, with the want of memory of
// pf_num.
#![tactic(auto)]

mod cell_run;
mod finding;
mod laws;

pub use cell_run::CellRun;
pub use finding::{cell_key, find_runs};
pub use laws::{runs_hold_each_place, runs_rise};
