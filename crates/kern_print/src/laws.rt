ghost use Rattle.kern_print.specs.ReadingBack.{CanonicalReadsBack};

use kern_token::{stopped_pieces, tokens_stand_in_order};
use kern_tree::trees_by_form;

/// The canonical text of a kernel that was parsed spells tokens that parse, and to this kernel again
/// but for places. It rests on laws of the tokens and of the tree.
pub fn canonical_reads_back()
    ensures { CanonicalReadsBack }
{
    stopped_pieces();
    tokens_stand_in_order();
    trees_by_form();
}
