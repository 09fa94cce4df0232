// The words after the program's name, read into a command.
// The first word picks the command, and clap reads the rest.
#![tactic(auto)]

mod command;
mod form;
mod number;
mod words;

pub use command::Command;
pub use words::read;
