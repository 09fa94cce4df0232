ghost use Rattle.deck_file.specs.Laws.{EveryTextHasAReading, NoTextHasTwoReadings};
ghost use Rattle.deck_file.specs.Laws.{DecksKeepTheirLimits, PrintedDecksReadBack};

use text_lines::{numbers_read_back, written_lines_read_back};

/// Every text has exactly one reading: the deck that it spells, or its first fault.
pub fn one_reading()
    ensures some { EveryTextHasAReading }
    ensures one { NoTextHasTwoReadings }
{}

/// The numbers and names of a deck that a text spells lie within their limits.
pub fn decks_keep_their_limits()
    ensures { DecksKeepTheirLimits }
{}

/// A deck that a text spells is also spelled by its canonical text.
pub fn printed_decks_read_back()
    ensures { PrintedDecksReadBack }
{
    numbers_read_back();
    written_lines_read_back();
}
