// The lines of a text, the fields of a line, and the number that a field writes: what particle files
// and decks have in common. It stands on nothing but std.
#![tactic(auto)]

mod fields;
mod laws;
mod line;
mod lines;
mod number;

pub use fields::Fields;
pub use laws::{numbers_are_found, numbers_read_back, written_lines_read_back};
pub use line::Line;
pub use lines::Lines;
pub use number::{NumberFault, digits_in, integer_in};
