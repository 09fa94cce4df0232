ghost use Rattle.kern_parse.specs.ReadingStops.{SomeAnswer, UnexpectedIsTheStop};

use kern_token::tokens_stand_in_order;
use kern_tree::trees_by_form;

/// The tokens of every text have an answer: the kernel that they spell, or their first fault.
pub fn some_answer()
    ensures { SomeAnswer }
{
    tokens_stand_in_order();
    trees_by_form();
}

/// `Unexpected` has the place where a reading by the next token stops: that of the first token that
/// can't begin what the grammar requires there, or the end where more is required.
pub fn unexpected_is_the_stop()
    ensures { UnexpectedIsTheStop }
{
    trees_by_form();
}
