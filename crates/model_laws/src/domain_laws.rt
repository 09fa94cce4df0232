// The laws of domains and ranks, each the contract of a function that does nothing when it runs. A caller whose
// proof needs a law calls its function.

ghost use Rattle.model_laws.specs.DomainLaws.{OwnersAreRanks, OwnersByCutsAreRanks, OneRankHasItsOwn, AllRanksHaveAll};
ghost use Rattle.model_laws.specs.DomainLaws.{LoneRanksHaveAll, CutsAscend, BoxesByCutsHoldWhatIsOwned};
ghost use Rattle.model_laws.specs.DomainLaws.{DomainBoxesHoldWhatIsOwned, CutsIgnoreOrder, DomainsIgnoreOrder};
ghost use Rattle.model_laws.specs.DomainLaws.{EssentialTreesIgnoreOrder, RanksHaveTheirOwn, RanksInTurnHaveAll};
ghost use Rattle.model_laws.specs.DomainLaws.{RanksByIdHaveAll, OrdersAlongAreOne, CoordinatesAscend};
ghost use Rattle.model_laws.specs.DomainLaws.{CutsAlongIgnoreOrder, CutsAreOfSlabsAndColumns};

use crate::id_laws::orders_by_id_have_all;
use order_laws::{lists_in_order_are_one, parts_by_key_are_all, parts_keep_permutations};
use pf_model::Body;

/// The owner of a position is one of the ranks.
pub fn owners_are_ranks()
    ensures { OwnersAreRanks }
{}

/// The owner of a position by the cuts of a multisection is one of its ranks.
pub fn owners_by_cuts_are_ranks()
    ensures { OwnersByCutsAreRanks }
{}

/// A list of one rank has the particles of this rank.
pub fn one_rank_has_its_own()
    ensures { OneRankHasItsOwn }
{}

/// A list of all ranks has all particles.
pub fn all_ranks_have_all()
    ensures { AllRanksHaveAll }
{}

/// Where there is one rank, it owns every position, and has all particles.
pub fn lone_ranks_have_all()
    ensures { LoneRanksHaveAll }
{}

/// The cuts that particles make ascend.
pub fn cuts_ascend()
    ensures { CutsAscend }
{}

/// The cuts that particles make are those of each slab along y, and of each column along z.
pub fn cuts_are_of_slabs_and_columns()
    ensures { CutsAreOfSlabsAndColumns }
{}

/// By the cuts of a multisection the box of a rank holds exactly what the rank owns.
pub fn boxes_by_cuts_hold_what_is_owned()
    ensures { BoxesByCutsHoldWhatIsOwned }
{}

/// The domain box of a rank holds exactly what the rank owns.
pub fn domain_boxes_hold_what_is_owned()
    ensures { DomainBoxesHoldWhatIsOwned }
{}

/// Particles have one order of (coordinate, id) along an axis.
pub fn orders_along_are_one()
    ensures { OrdersAlongAreOne }
{
    lists_in_order_are_one::<Body>();
}

/// The coordinates ascend in this order.
pub fn coordinates_ascend()
    ensures { CoordinatesAscend }
{}

/// The order of particles changes no cut along an axis.
pub fn cuts_along_ignore_order()
    ensures { CutsAlongIgnoreOrder }
{}

/// The order of particles changes no cut.
pub fn cuts_ignore_order()
    ensures { CutsIgnoreOrder }
{}

/// The order of particles changes no owner and no domain box.
pub fn domains_ignore_order()
    ensures { DomainsIgnoreOrder }
{}

/// The order of particles changes no essential tree.
pub fn essential_trees_ignore_order()
    ensures { EssentialTreesIgnoreOrder }
{}

/// A list of a rank and others has the particles of the one and of the others, up to their order.
pub fn ranks_have_their_own()
    ensures { RanksHaveTheirOwn }
{}

/// The particles of the ranks in turn are all.
pub fn ranks_in_turn_have_all()
    ensures { RanksInTurnHaveAll }
{
    parts_by_key_are_all::<Body>();
}

/// So they are by id in each rank.
pub fn ranks_by_id_have_all()
    ensures { RanksByIdHaveAll }
{
    ranks_in_turn_have_all();
    parts_keep_permutations::<u32, Body>();
    orders_by_id_have_all();
}
