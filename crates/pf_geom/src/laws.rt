// The laws of keys, cells, boxes and gaps, each the contract of a function that does nothing when it
// runs. A caller whose proof needs a law calls its function.

ghost use Rattle.pf_geom.specs.CellLaws.{KeysInterleave, KeysAreDistinct, KeysFit, CellsHaveEqualFloors};
ghost use Rattle.pf_geom.specs.CellLaws.{LevelsTakeThreeBits, ShiftedKeysFit};
ghost use Rattle.pf_geom.specs.CellLaws.{PositionsHaveCells, CellsAreKeyRanges, CellsOfAPositionNest, PositionsShareLowerCells};
ghost use Rattle.pf_geom.specs.CellLaws.{CellsNest, CornersAreFloors, CornersLieInside, ClosedBoxesHoldTheirCells};
ghost use Rattle.pf_geom.specs.BoxLaws.{BoxesRoundAreLeast, GapsAreBounded, GapsGrowAsBoxesShrink};
ghost use Rattle.pf_geom.specs.BoxLaws.{GapsGrowAsCellsShrink, GapsVanishWhereShared};

/// The bits of a key are those of its position.
pub fn keys_interleave()
    ensures { KeysInterleave }
{}

/// Two positions have one key exactly where they are one.
pub fn keys_are_distinct()
    ensures { KeysAreDistinct }
{}

/// A key is below 2^90.
pub fn keys_fit()
    ensures { KeysFit }
{
    positions_have_cells();
}

/// The cell of a position at a level holds exactly the positions with the same floored coordinates.
pub fn cells_have_equal_floors()
    ensures { CellsHaveEqualFloors }
{}

/// A level takes three bits of a key: a shift by them is a power of 8.
pub fn levels_take_three_bits()
    ensures { LevelsTakeThreeBits }
{}

/// A key of a level loses no bit where it is shifted to the deepest level.
pub fn shifted_keys_fit()
    ensures { ShiftedKeysFit }
{}

/// The cell of a position at a level is one of that level's.
pub fn positions_have_cells()
    ensures { PositionsHaveCells }
{}

/// The keys of the positions of a cell are a run without gaps.
pub fn cells_are_key_ranges()
    ensures { CellsAreKeyRanges }
{}

/// The cells of one position lie in one another.
pub fn cells_of_a_position_nest()
    ensures { CellsOfAPositionNest }
{}

/// Positions in one cell are in one cell at each lower level.
pub fn positions_share_lower_cells()
    ensures { PositionsShareLowerCells }
{}

/// A cell lies inside another exactly where that is its ancestor.
pub fn cells_nest()
    ensures { CellsNest }
{}

/// The corner of the cell of a position is the position, floored.
pub fn corners_are_floors()
    ensures { CornersAreFloors }
{}

/// The corner of a cell lies in it, and has its least key.
pub fn corners_lie_inside()
    ensures { CornersLieInside }
{}

/// The closed box of a cell holds exactly its positions.
pub fn closed_boxes_hold_their_cells()
    ensures { ClosedBoxesHoldTheirCells }
{}

/// The box round a box and a position is the least that holds both.
pub fn boxes_round_are_least()
    ensures { BoxesRoundAreLeast }
{}

/// A squared gap is below 3 · 2^60.
pub fn gaps_are_bounded()
    ensures { GapsAreBounded }
{}

/// A box inside a box has a gap at least as great.
pub fn gaps_grow_as_boxes_shrink()
    ensures { GapsGrowAsBoxesShrink }
{}

/// A cell inside a cell has a gap at least as great.
pub fn gaps_grow_as_cells_shrink()
    ensures { GapsGrowAsCellsShrink }
{}

/// A gap is 0 exactly where the box and the cell share a position.
pub fn gaps_vanish_where_shared()
    ensures { GapsVanishWhereShared }
{}
