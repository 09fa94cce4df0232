use pf_geom::{Box3, Cell, Edge, Point};
use pf_model::{Body, Field, Item, Theta, box_of};

// A moving particle with attributes of its own.
fn moving() -> Body {
    Body {
        id: 7,
        at: Point { x: 1, y: 2, z: 3 },
        vel: [-4, 5, -6],
        mass: 8,
        attr: [10, 11, 12, 13, 14, 15, 16, 17],
    }
}

fn reads(field: Field, x: i64, y: i64, z: i64) -> bool {
    field.of_body(&moving()) == [x, y, z]
}

#[test]
fn a_kernel_reads_a_particle_by_its_fields(rt: HostRuntime) {
    assert!(rt; reads(Field::Pos, 1, 2, 3));
    assert!(rt; reads(Field::Vel, -4, 5, -6));
    assert!(rt; reads(Field::Mass, 8, 0, 0));
    assert!(rt; reads(Field::C0, 10, 0, 0));
    assert!(rt; reads(Field::C7, 17, 0, 0));
    assert!(rt; reads(Field::Count, 0, 0, 0));
    assert!(rt; Field::Vel.is_vector() && !Field::Mass.is_vector());
}

// The item of two particles.
fn pair() -> Item {
    Item {
        at: Point { x: 9, y: 0, z: 1 },
        mass: 12,
        attr: [-1, 2, -3, 4, -5, 6, -7, 8],
        count: 2,
    }
}

fn reads_of_pair(field: Field, x: i64, y: i64, z: i64) -> bool {
    field.of_item(&pair()) == [x, y, z]
}

#[test]
fn a_kernel_reads_an_item_by_its_fields(rt: HostRuntime) {
    assert!(rt; reads_of_pair(Field::Pos, 9, 0, 1));
    assert!(rt; reads_of_pair(Field::Vel, 0, 0, 0));
    assert!(rt; reads_of_pair(Field::Mass, 12, 0, 0));
    assert!(rt; reads_of_pair(Field::C6, -7, 0, 0));
    assert!(rt; reads_of_pair(Field::Count, 2, 0, 0));
}

fn box_of_two() -> Box3 {
    let far = Body {
        id: 8,
        at: Point { x: 0, y: 9, z: 3 },
        ..moving()
    };
    box_of(&[moving(), far])
}

fn is_at(p: Point, x: u32, y: u32, z: u32) -> bool {
    p.x == x && p.y == y && p.z == z
}

#[test]
fn a_box_is_the_least_round_its_particles(rt: HostRuntime) {
    let around = box_of_two();
    assert!(rt; is_at(around.lo, 0, 2, 3) && is_at(around.hi, 1, 9, 3));
}

// Whether a cell passes at the angle a/b, in an open cube, from the box of the point (2^20, 0, 0).
fn passes(a: u32, b: u32, cell: Cell) -> bool {
    if a > 1024 || b == 0 || b > 1024 {
        return false;
    }
    let p = Point {
        x: 1 << 20,
        y: 0,
        z: 0,
    };
    let edge = Edge::Open;
    Theta { a, b, edge }.passes(Box3 { lo: p, hi: p }, cell)
}

#[test]
fn the_test_goes_by_the_angle(rt: HostRuntime) {
    let cell = Cell { level: 10, key: 32 };
    assert!(rt; passes(1, 1, cell) && !passes(1, 2, cell) && !passes(0, 1, cell));
}

#[test]
fn a_cell_that_has_a_position_of_the_box_never_passes(rt: HostRuntime) {
    let own = Cell {
        level: 30,
        key: 1 << 62,
    };
    // The cell of the position before it, at x = 2^20 - 1.
    let beside = Cell {
        level: 30,
        key: 658_812_288_346_769_700,
    };
    assert!(rt; !passes(1024, 1, Cell { level: 0, key: 0 }));
    assert!(rt; !passes(1024, 1, Cell { level: 10, key: 4 }));
    assert!(rt; !passes(1024, 1, own));
    assert!(rt; passes(1024, 1, beside));
}
