// The geometry of the simulation cube: points, cells, boxes and the gaps between them.
// It stands on nothing but std.
#![tactic(auto)]

mod axis;
mod box3;
mod cell;
mod edge;
mod gap;
mod key;
mod laws;
mod point;

pub use axis::Axis;
pub use box3::{Box3, widen};
pub use cell::{Cell, DEEPEST, cell_of, contains, corner, side};
pub use edge::Edge;
pub use gap::{gap2, gap2_across, gap2_round, squared_gap};
pub use key::key_of;
pub use laws::{
    boxes_round_are_least, cells_are_key_ranges, cells_have_equal_floors, cells_nest,
    cells_of_a_position_nest, closed_boxes_hold_their_cells, corners_are_floors,
    corners_lie_inside, gaps_are_bounded, gaps_grow_as_boxes_shrink, gaps_grow_as_cells_shrink,
    gaps_vanish_where_shared, keys_are_distinct, keys_fit, keys_interleave, levels_take_three_bits,
    positions_have_cells, positions_share_lower_cells, shifted_keys_fit,
};
pub use point::{Point, point_at};
