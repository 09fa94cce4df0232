ghost use Rattle.text_lines.specs.Laws.{WrittenLinesReadBack, DigitsReadBack, IntegersReadBack, DigitsAreFound, IntegersAreFound};

/// Lines that are written with single spaces between their fields, each ended by a line feed, are read
/// with these fields, and numbered from 1.
pub fn written_lines_read_back()
    ensures { WrittenLinesReadBack }
{}

/// A number that is written in decimals is a field, and is read as this number.
pub fn numbers_read_back()
    ensures digits { DigitsReadBack }
    ensures integers { IntegersReadBack }
{}

/// A number is read exactly where the field writes it, and it is within the limits.
pub fn numbers_are_found()
    ensures digits { DigitsAreFound }
    ensures integers { IntegersAreFound }
{}
