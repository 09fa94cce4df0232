ghost use Rattle.std.specs.Prelude.{◌≡◌, ◌<◌};

use opening_test::{LeastGaps, passes};
use pf_geom::{Box3, Cell, Edge, point_at};
use pf_model::{Steps, Theta};
use std::marker::Brand;
use std::sync::ledger::{Blank, Ledger};

// The cell from 2^21 on along x.
const APART: Cell = Cell { level: 10, key: 32 };

// The first cell of its level, and the last along x.
const FIRST: Cell = Cell { level: 10, key: 0 };

const ACROSS: Cell = Cell {
    level: 10,
    key: 613_566_756,
};

// The angles 1/1, 1/2 and 0/1.
fn angles(edge: Edge) -> [Theta; 3] {
    [
        Theta { a: 1, b: 1, edge },
        Theta { a: 1, b: 2, edge },
        Theta { a: 0, b: 1, edge },
    ]
}

// The answers of the test at the three angles, from a box.
fn answers<L: Ledger>(b: Box3, c: Cell, edge: Edge, blank: Blank) -> [bool; 3]
    requires name { blank.name ≡ L.name }
    requires parts { blank.parts ≡ L.parts }
    requires some { 0 < L.parts }
{
    let [one, half, never] = angles(edge);
    let mut steps = Steps::new(blank);
    [
        passes::<L>(b, c, one, &mut steps),
        passes::<L>(b, c, half, &mut steps),
        passes::<L>(b, c, never, &mut steps),
    ]
}

// The answers of the tables of these angles.
fn answers_of_tables<L: Ledger>(b: Box3, c: Cell, edge: Edge, blank: Blank) -> [bool; 3]
    requires name { blank.name ≡ L.name }
    requires parts { blank.parts ≡ L.parts }
    requires some { 0 < L.parts }
{
    let [one, half, never] = angles(edge);
    let mut steps = Steps::new(blank);
    [
        LeastGaps::of(one).passes::<L>(b, c, &mut steps),
        LeastGaps::of(half).passes::<L>(b, c, &mut steps),
        LeastGaps::of(never).passes::<L>(b, c, &mut steps),
    ]
}

// Whether the test answers so at the three angles, from the box of a place on the x axis.
fn answers_so(x: u32, cell: Cell, edge: Edge, wanted: [bool; 3]) -> bool {
    match point_at(x, 0, 0) {
        Some(p) => answers::<Brand>(Box3 { lo: p, hi: p }, cell, edge, Blank::new(1)) == wanted,
        None => false,
    }
}

// Whether the tables do.
fn tables_answer_so(x: u32, cell: Cell, edge: Edge, wanted: [bool; 3]) -> bool {
    match point_at(x, 0, 0) {
        Some(p) => {
            answers_of_tables::<Brand>(Box3 { lo: p, hi: p }, cell, edge, Blank::new(1)) == wanted
        }
        None => false,
    }
}

#[test]
fn a_cell_passes_at_a_gap_of_its_side(rt: HostRuntime) {
    assert!(rt; answers_so(1 << 20, APART, Edge::Open, [true, false, false]));
    assert!(rt; answers_so(1 << 20, APART, Edge::Periodic, [true, false, false]));
}

#[test]
fn tables_answer_as_the_test_does(rt: HostRuntime) {
    assert!(rt; tables_answer_so(1 << 20, APART, Edge::Open, [true, false, false]));
    assert!(rt; tables_answer_so(1 << 20, APART, Edge::Periodic, [true, false, false]));
    assert!(rt; tables_answer_so(0, ACROSS, Edge::Open, [true, true, false]));
    assert!(rt; tables_answer_so(0, ACROSS, Edge::Periodic, [false, false, false]));
}

#[test]
fn a_cell_across_the_edge_is_near_in_a_periodic_cube(rt: HostRuntime) {
    assert!(rt; answers_so((1 << 30) - 1, FIRST, Edge::Open, [true, true, false]));
    assert!(rt; answers_so((1 << 30) - 1, FIRST, Edge::Periodic, [false, false, false]));
}
