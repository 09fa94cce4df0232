// The top call: from the words of a command line to the status that ends the program. It stands on the readers of
// decks, kernels and particles, on the steps of a run and their texts, and on the frame of commands.
#![tactic(auto)]

mod bench;
mod dumps;
mod inputs;
mod run;
mod said;
mod status;
mod top;
mod workers;
mod world;

pub use said::said_line;
pub use status::{Refusal, Status, code};
pub use top::{fdps, one_verdict, some_verdict};
