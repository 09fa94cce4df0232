// The summary of the benchmark: what the texts of its steps and the rank lines of the last one come to. It stands on the
// texts of run_model.
#![tactic(auto)]

mod counts;
mod tally;
mod text;

pub use counts::Counts;
pub use tally::Tally;
pub use text::summary;
