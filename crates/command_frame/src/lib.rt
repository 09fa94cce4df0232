// The frame of the program's commands: a command reads inputs, writes an output or says a text, and ends with a
// status, all of which one verdict on the contents at entry decides. It stands on pf_io for its stores.
#![tactic(auto)]

mod input;
mod output;
mod speak;
mod status;

pub use input::load;
pub use output::Next;
pub use speak::say_answer;
pub use status::{Status, StoreCall};
