// The deck of a run: the files that it names, and its settings. Read from a text or refused with its first fault,
// and printed.
#![tactic(auto)]

mod deck;
mod fault;
mod keyword;
mod laws;
mod limits;
mod printing;
mod reading;
mod setting;
mod values;

pub use deck::Deck;
pub use fault::{DeckFault, Key};
pub use laws::{decks_keep_their_limits, one_reading, printed_decks_read_back};
pub use limits::{MOST_DT, MOST_NAME, MOST_REUSE, MOST_STEPS};
pub use printing::print;
pub use reading::read;
