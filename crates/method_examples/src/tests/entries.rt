use super::bodies::{Row, is_body};
use pf_geom::Cell;
use pf_model::{Entry, Moment};

// What an entry of a list has to be: a cell's level and key with the count, the mass and the weighted sums of its
// moment, whose attributes are 0, or a particle.
pub enum Shown {
    Cell(u32, u128, u32, u64, [u128; 3]),
    One(Row),
}

fn is_shown(entry: &Entry, shown: &Shown) -> bool {
    match shown {
        Shown::Cell(level, key, count, mass, weighted) => {
            is_cell(entry, *level, *key, *count, *mass, *weighted)
        }
        Shown::One(row) => is_particle(entry, row),
    }
}

fn is_cell(
    entry: &Entry,
    level: u32,
    key: u128,
    count: u32,
    mass: u64,
    weighted: [u128; 3],
) -> bool {
    match entry {
        Entry::Cell(cell, moment) => {
            has_sums(moment, count, mass, weighted) && (cell.level, cell.key) == (level, key)
        }
        Entry::One(_) => false,
    }
}

pub fn has_sums(moment: &Moment, count: u32, mass: u64, weighted: [u128; 3]) -> bool {
    moment.count == count
        && moment.mass == mass
        && moment.weighted == weighted
        && moment.attr == [0; 8]
}

fn is_particle(entry: &Entry, row: &Row) -> bool {
    match entry {
        Entry::Cell(..) => false,
        Entry::One(body) => is_body(body, row),
    }
}

// Whether these entries are those shown, in their order.
pub fn are_shown(entries: &[Entry], shown: &[Shown]) -> bool {
    if entries.len() != shown.len() {
        return false;
    }
    for i in 0..shown.len() {
        if !is_shown(&entries[i], &shown[i]) {
            return false;
        }
    }
    true
}

// Whether these are the cells of the entries shown, which stand before the particles.
pub fn are_cells(cells: &[Cell], shown: &[Shown]) -> bool {
    for i in 0..shown.len() {
        match &shown[i] {
            Shown::Cell(level, key, ..) => {
                if !is_cell_at(cells, i, *level, *key) {
                    return false;
                }
            }
            Shown::One(_) => return cells.len() == i,
        }
    }
    cells.len() == shown.len()
}

fn is_cell_at(cells: &[Cell], place: usize, level: u32, key: u128) -> bool {
    match cells.get(place) {
        Some(cell) => cell.level == level && cell.key == key,
        None => false,
    }
}
