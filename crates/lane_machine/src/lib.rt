// Runs lane code over lists of items, in blocks of lanes, and adds up what it gives. It stands on lane_code for the
// meaning of codes, and on kern_types for the variables that are added up.
#![tactic(auto)]

mod advance;
mod answer;
mod block;
mod clear;
mod column;
mod give;
mod machine;
mod mask;
mod number;
mod registers;
mod run;
mod sums;
mod total;

pub use column::LANES;
pub use machine::Machine;
pub use number::Faulted;
pub use sums::Sums;
