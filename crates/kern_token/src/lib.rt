// The tokens of a kernel text: names, words, scales, numbers and symbols, with their places.
// It stands on nothing but std.
#![tactic(auto)]

mod bytes;
mod fault;
mod front;
mod laws;
mod limits;
mod name;
mod number;
mod reading;
mod runs;
mod spelling;
mod token;

pub use fault::KernFault;
pub use laws::{one_reading, stopped_pieces, tokens_stand_in_order};
pub use limits::{MOST_SCALE, MOST_TEXT};
pub use name::Name;
pub use reading::tokens;
pub use token::{Symbol, Token, TokenKind, Word};
