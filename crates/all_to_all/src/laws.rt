ghost use Rattle.all_to_all.specs.Laws.{EachOtherSentOne};

use let_inbox::{Named, others_stand_in_turn};

/// Where each rank sends one parcel to each other rank, by rank, what was sent for a rank is one parcel from each
/// other, by rank.
pub fn each_other_sent_one<M: Named>()
    ensures { EachOtherSentOne M.target }
{
    others_stand_in_turn();
}
