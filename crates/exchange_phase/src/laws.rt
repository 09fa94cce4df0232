// Laws of what ranks have, each the contract of a function that does nothing when it runs. A caller whose proof needs
// a law calls its function.

ghost use Rattle.exchange_phase.specs.Laws.{PhaseLaws};
ghost use Rattle.exchange_phase.specs.Ranks.{RanksByNumberHaveTogether};

use all_to_all::each_other_sent_one;
use exchange::{Parcel, each_rank_has_its_own};
use model_laws::{
    cuts_ignore_order, distinct_ids_ignore_order, domains_ignore_order, orders_by_id_are_one,
    some_have_distinct_ids,
};

/// Ranks by number, each with its part, have together what the parts are in turn.
pub fn ranks_by_number_have_together()
    ensures { RanksByNumberHaveTogether }
{}

// The laws of the phases.
pub(crate) fn phase_laws()
    ensures { PhaseLaws }
{
    cuts_ignore_order();
    distinct_ids_ignore_order();
    domains_ignore_order();
    each_other_sent_one::<Parcel>();
    each_rank_has_its_own();
    orders_by_id_are_one();
    some_have_distinct_ids();
}
