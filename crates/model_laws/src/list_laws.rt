// The laws of interaction lists, each the contract of a function that does nothing when it runs. A caller whose
// proof needs a law calls its function.

ghost use Rattle.model_laws.specs.ListLaws.{LevelsAreLeast, ListsHoldTheirEntries, EachIsInOneEntry, ListsIgnoreOrder};
ghost use Rattle.model_laws.specs.ListLaws.{ListsAreShort, FirstCellsHoldTheirMembers, ListsHoldFirstCells};
ghost use Rattle.model_laws.specs.ListLaws.{ListsHoldNearParticles, ParticlesInTheBoxAreNear, ListsOfNearAreParticles};
ghost use Rattle.model_laws.specs.ListLaws.{EntryOrderIsStrict, EntriesHaveLevels, EntriesStandByPlace};
ghost use Rattle.model_laws.specs.ListLaws.{EntriesAtOnePlaceAreOne};

use crate::opening_laws::passing_cells_lie_apart;
use order_laws::{maps_keep_orders, orders_are_short};
use pf_geom::{cells_of_a_position_nest, positions_have_cells, positions_share_lower_cells};
use pf_model::{Body, Entry};

/// The level of a position is the least at which its cell passes the opening test.
pub fn levels_are_least()
    ensures { LevelsAreLeast }
{}

/// The list over particles is the one list of the entries that they lead to, each once, in order.
pub fn lists_hold_their_entries()
    ensures { ListsHoldTheirEntries }
{}

/// Each particle is a member of exactly one entry of a list.
pub fn each_is_in_one_entry()
    ensures { EachIsInOneEntry }
{}

/// The order of particles changes nothing in a list over them.
pub fn lists_ignore_order()
    ensures { ListsIgnoreOrder }
{}

/// A list is no longer than its particles.
pub fn lists_are_short()
    ensures { ListsAreShort }
{
    orders_are_short::<Entry>();
}

/// The particles that lead to the first passing cell of a position are those in it.
pub fn first_cells_hold_their_members()
    ensures { FirstCellsHoldTheirMembers }
{
    positions_share_lower_cells();
}

/// A list has the cells that pass under none that does and hold a particle, each with all its particles.
pub fn lists_hold_first_cells()
    ensures { ListsHoldFirstCells }
{
    cells_of_a_position_nest();
    positions_share_lower_cells();
}

/// A list has those particles as themselves of which no cell passes.
pub fn lists_hold_near_particles()
    ensures { ListsHoldNearParticles }
{}

/// No cell of a position in the box passes.
pub fn particles_in_the_box_are_near()
    ensures { ParticlesInTheBoxAreNear }
{
    passing_cells_lie_apart();
    positions_have_cells();
}

/// Where no cell passes, the list is the particles by id.
pub fn lists_of_near_are_particles()
    ensures { ListsOfNearAreParticles }
{
    maps_keep_orders::<Body, Entry>();
}

/// The order of entries is strict.
pub fn entry_order_is_strict()
    ensures { EntryOrderIsStrict }
{}

/// An entry that particles lead to is a particle, or a cell of a level that there is.
pub fn entries_have_levels()
    ensures { EntriesHaveLevels }
{}

/// An entry comes before another exactly where its place is lower.
pub fn entries_stand_by_place()
    ensures { EntriesStandByPlace }
{}

/// Entries of particles at one place are one.
pub fn entries_at_one_place_are_one()
    ensures { EntriesAtOnePlaceAreOne }
{}
