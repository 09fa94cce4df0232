use pf_geom::{
    Box3, Cell, Point, cell_of, contains, corner, gap2, gap2_round, key_of, point_at, side, widen,
};

const LAST: u32 = (1 << 30) - 1;

const WHOLE: Cell = Cell { level: 0, key: 0 };

// The last eighth of the cube.
const EIGHTH: Cell = Cell { level: 1, key: 7 };

// The cell from 2^21 on along x, of the side 2^20.
const FAR: Cell = Cell { level: 10, key: 32 };

fn has_key(x: u32, y: u32, z: u32, key: u128) -> bool {
    match point_at(x, y, z) {
        Some(p) => key_of(p) == key,
        None => false,
    }
}

#[test]
fn a_key_takes_the_bits_of_x_y_and_z_in_turn(rt: HostRuntime) {
    assert!(rt; has_key(3, 4, 0, 164));
    assert!(rt; has_key(1, 0, 0, 4));
    assert!(rt; has_key(0, 1, 0, 2));
    assert!(rt; has_key(0, 0, 1, 1));
    assert!(rt; has_key(0, 0, 0, 0));
    assert!(rt; has_key(LAST, LAST, LAST, (1 << 90) - 1));
}

fn is_at(p: Point, x: u32, y: u32, z: u32) -> bool {
    p.x == x && p.y == y && p.z == z
}

// Whether the squared gap from a place on the x axis to a cell is the one, and the other across the edge.
fn has_gaps(x: u32, cell: Cell, gap: u128, round: u128) -> bool {
    match point_at(x, 0, 0) {
        Some(p) => {
            let b = Box3 { lo: p, hi: p };
            gap2(b, cell) == gap && gap2_round(b, cell) == round
        }
        None => false,
    }
}

#[test]
fn a_cell_has_a_corner_a_side_and_a_gap(rt: HostRuntime) {
    assert!(rt; is_at(corner(FAR), 1 << 21, 0, 0));
    assert!(rt; side(FAR) == 1 << 20);
    assert!(rt; has_gaps(1 << 20, FAR, 1 << 40, 1 << 40));
}

// The cell of a place at a level.
fn cell_at(x: u32, y: u32, z: u32, level: u32) -> Option<Cell> {
    if level > 30 {
        return None;
    }
    Some(cell_of(point_at(x, y, z)?, level))
}

// Whether the cell of a place on the x axis has its corner there and these squared gaps to another such place.
fn has_gaps_from(x: u32, level: u32, from: u32, gap: u128, round: u128) -> bool {
    match cell_at(x, 0, 0, level) {
        Some(cell) => is_at(corner(cell), x, 0, 0) && has_gaps(from, cell, gap, round),
        None => false,
    }
}

#[test]
fn a_periodic_gap_goes_across_the_edge(rt: HostRuntime) {
    assert!(rt; has_gaps_from(1072693248, 10, 0, 1072693248 * 1072693248, 1));
    assert!(rt; has_gaps_from(0, 10, LAST, 1072693248 * 1072693248, 1));
}

fn has(cell: Cell, x: u32, y: u32, z: u32) -> bool {
    match point_at(x, y, z) {
        Some(p) => contains(cell, p),
        None => false,
    }
}

// Whether the last place of the cube lies in this cell of its level, whose side and whose corner, the same along
// each axis, are these.
fn is_last(cell: Cell, side_is: u32, from: u32) -> bool {
    cell_at(LAST, LAST, LAST, cell.level) == Some(cell)
        && side(cell) == side_is
        && is_at(corner(cell), from, from, from)
        && has(cell, LAST, LAST, LAST)
}

#[test]
fn the_corners_of_the_cube_lie_in_their_cells(rt: HostRuntime) {
    assert!(rt; is_last(WHOLE, 1 << 30, 0) && has(WHOLE, 0, 0, 0));
    assert!(rt; is_last(EIGHTH, 1 << 29, 1 << 29) && !has(EIGHTH, 0, 0, 0));
    assert!(rt;
        is_last(
            Cell {
                level: 30,
                key: (1 << 90) - 1
            },
            1,
            LAST
        )
    );
}

// Whether the box of one place, widened to another, goes from the one corner to the other.
fn widens(from: [u32; 3], to: [u32; 3], lo: [u32; 3], hi: [u32; 3]) -> bool {
    let (Some(p), Some(q)) = (
        point_at(from[0], from[1], from[2]),
        point_at(to[0], to[1], to[2]),
    ) else {
        return false;
    };
    let b = widen(Box3 { lo: p, hi: p }, q);
    is_at(b.lo, lo[0], lo[1], lo[2]) && is_at(b.hi, hi[0], hi[1], hi[2])
}

#[test]
fn a_box_widens_to_a_point(rt: HostRuntime) {
    assert!(rt; widens([5, 5, 5], [3, 9, 5], [3, 5, 5], [5, 9, 5]));
}
