ghost use Rattle.std.specs.Prelude.{◌≡◌, ℕ, ◌+◌, ◌-◌, ◌*◌, ◌/◌, ◌^◌, ◌<◌, ◌≤◌, ◌↔◌, true, false, All, List, IfSome, OnOk};
ghost use Rattle.std.specs.Prelude.{length, map, slice_index_or};
ghost use Rattle.std.specs.List.Sorted.{IsNonDecreasing};
ghost use Rattle.pf_geom.specs.Position.{Position};
ghost use Rattle.pf_geom.specs.Key.{morton_key};
ghost use Rattle.pf_model.specs.Criterion.{Passes};
ghost use Rattle.pf_model.specs.Interaction.{level_of};
ghost use Rattle.model_laws.specs.ListLaws.{NonePasses};
ghost use Rattle.cell_runs.specs.CellRuns.{IsCellRun, AreCellRuns};
ghost use Rattle.cell_runs.specs.Finding.{cell_of_key, IsBetweenCells, key_before, IsShared, NoSharedPasses};
ghost use Rattle.cell_runs.specs.Finding.{IsCellFront, IsFront, past_cell};

use crate::cell_run::CellRun;
use model_laws::{cells_inside_pass, levels_are_least, nothing_passes_at_zero};
use opening_test::LeastGaps;
use pf_geom::{
    Box3, Cell, DEEPEST, levels_take_three_bits, positions_have_cells, positions_share_lower_cells,
};
use pf_model::{MOST_PARTICLES, Steps, Theta};
use pf_num::OutOfMemory;
use std::sync::ledger::Ledger;

// How many levels are tested before the deepest one tells whether more need to be: most cells pass at one of them.
const LEVELS_AT_ONCE: u32 = 3;

/// The cell runs of positions in key order, from their Morton keys, into `runs`, whatever it held before. This
/// is the walk of the octree, depth first: a cell is tested once, where its first position stands, and only where
/// no cell above it passed; but a position whose cells fail from the first on has its deepest one tested early, since
/// where that fails all do. Where the opening angle is 0 nothing is tested.
pub fn find_runs<L: Ledger>(
    keys: &[u128],
    b: Box3,
    t: Theta,
    runs: &mut Vec<CellRun>,
    steps: &mut Steps<L>,
) -> Result<(), OutOfMemory>
    requires few { length keys.now ≤ MOST_PARTICLES }
    requires keys { All (λ key. key < 2 ^ 90) keys.now }
    requires ascending { IsNonDecreasing keys.now }
    ensures runs { OnOk result ((ps : List Position) → keys.now ≡ map morton_key ps
        → AreCellRuns t b ps runs.new.items) }
    ensures tests { OnOk result (steps.new ≤ steps.old + (DEEPEST + 1) * length runs.new.items) }
    ensures none { t.a ≡ 0 → steps.new ≡ steps.old }
{
    let gaps = LeastGaps::of(t);
    runs.clear();
    let mut place = 0;
    while place < keys.len() {
        let run = run_from(keys, place, b, &gaps, steps);
        runs.push(run)?;
        place += run.len as usize;
    }
    Ok(())
}

// The cell run from a place on, which lies between cells.
fn run_from<L: Ledger>(
    keys: &[u128],
    place: usize,
    b: Box3,
    gaps: &LeastGaps,
    steps: &mut Steps<L>,
) -> CellRun
    requires within { place < length keys.now }
    requires few { length keys.now ≤ MOST_PARTICLES }
    requires keys { All (λ key. key < 2 ^ 90) keys.now }
    requires ascending { IsNonDecreasing keys.now }
    ensures run { (ps : List Position) → keys.now ≡ map morton_key ps → IsBetweenCells gaps.now b ps place
        → IsCellRun gaps.now b ps result }
    ensures first { result.first ≡ place }
    ensures some { 1 ≤ result.len }
    ensures inside { place + result.len ≤ length keys.now }
    ensures cost { steps.new ≤ steps.old + (DEEPEST + 1) }
    ensures none { gaps.now.a ≡ 0 → steps.new ≡ steps.old }
{
    levels_are_least();
    positions_share_lower_cells();
    let level = first_level(keys[place], key_before(keys, place), b, gaps, steps);
    let len = front(&keys[place..], level);
    CellRun {
        first: place as u32,
        len: len as u32,
        level,
    }
}

// The key at the place before, if there is one.
fn key_before(keys: &[u128], place: usize) -> Option<u128>
    requires place { place ≤ length keys.now }
    requires keys { All (λ key. key < 2 ^ 90) keys.now }
    ensures value { result ≡ key_before keys.now place }
    ensures fits { IfSome result (λ key. key < 2 ^ 90) }
{
    if place == 0 {
        None
    } else {
        Some(keys[place - 1])
    }
}

// The least level at which the cell of a key passes, if there is one, where no cell that it shares with the key
// before does: those aren't tested again.
fn first_level<L: Ledger>(
    key: u128,
    before: Option<u128>,
    b: Box3,
    gaps: &LeastGaps,
    steps: &mut Steps<L>,
) -> Option<u32>
    requires key { key < 2 ^ 90 }
    requires before { IfSome before (λ key. key < 2 ^ 90) }
    ensures value { (p : Position) → morton_key p ≡ key → NoSharedPasses gaps.now b before key
        → result ≡ level_of gaps.now b p }
    ensures fits { IfSome result (λ level. level ≤ DEEPEST) }
    ensures cost { steps.new ≤ steps.old + (DEEPEST + 1) }
    ensures none { gaps.now.a ≡ 0 → steps.new ≡ steps.old }
{
    levels_are_least();
    nothing_passes_at_zero();
    if gaps.theta().a == 0 {
        return None;
    }
    let first = shared_levels(before, key);
    if first > DEEPEST {
        return None;
    }
    let next = DEEPEST.min(first + LEVELS_AT_ONCE);
    for level in first..next {
        if gaps.passes(b, cell_of_key(key, level), steps) {
            return Some(level);
        }
    }
    if !deepest_passes(key, b, gaps, steps) {
        return None;
    }
    for deep in next..DEEPEST {
        if gaps.passes(b, cell_of_key(key, deep), steps) {
            return Some(deep);
        }
    }
    Some(DEEPEST)
}

// Whether the deepest cell of a key passes: where it doesn't, none of its cells does.
fn deepest_passes<L: Ledger>(key: u128, b: Box3, gaps: &LeastGaps, steps: &mut Steps<L>) -> bool
    requires { key < 2 ^ 90 }
    ensures passes { result ≡ true → Passes b (cell_of_key key DEEPEST) gaps.now }
    ensures none { result ≡ false → (p : Position) → morton_key p ≡ key → NonePasses gaps.now b p }
    ensures cost { steps.new ≡ steps.old + 1 }
{
    cells_inside_pass();
    positions_have_cells();
    positions_share_lower_cells();
    let (from, to) = (b.lo, b.hi);
    let (_least, _greatest) = (from.x, to.x);
    gaps.passes(b, cell_of_key(key, DEEPEST), steps)
}

// At how many levels the cell of a key is that of the key before. They are the first ones.
fn shared_levels(before: Option<u128>, key: u128) -> u32
    requires key { key < 2 ^ 90 }
    requires before { IfSome before (λ key. key < 2 ^ 90) }
    ensures most { result ≤ DEEPEST + 1 }
    ensures shared { (level : ℕ) → level ≤ DEEPEST → (level < result) ↔ IsShared before key level }
{
    match before {
        Some(before) => common_levels(before, key),
        None => 0,
    }
}

// At how many levels two keys have one cell: their leading bits, three for each level past the first, are equal.
fn common_levels(one: u128, other: u128) -> u32
    requires one { one < 2 ^ 90 }
    requires other { other < 2 ^ 90 }
    ensures most { result ≤ DEEPEST + 1 }
    ensures common { (level : ℕ) → level ≤ DEEPEST
        → (level < result) ↔ (cell_of_key one level ≡ cell_of_key other level) }
{
    levels_take_three_bits();
    let beyond = u128::BITS - 3 * DEEPEST;
    ((one ^ other).leading_zeros() - beyond) / 3 + 1
}

fn cell_of_key(key: u128, level: u32) -> Cell
    requires key { key < 2 ^ 90 }
    requires level { level ≤ DEEPEST }
    ensures { result ≡ cell_of_key key level }
{
    Cell {
        level,
        key: cell_key(key, level),
    }
}

/// The key of the cell at a level of what has this key: its leading bits, three for each level.
pub fn cell_key(key: u128, level: u32) -> u128
    requires { level ≤ DEEPEST }
    ensures { result ≡ key / 8 ^ (DEEPEST - level) }
{
    levels_take_three_bits();
    key >> (3 * (DEEPEST - level))
}

// How many keys, from the first on, lie in its cell at a level, or one where there is no level.
fn front(keys: &[u128], level: Option<u32>) -> usize
    requires some { 1 ≤ length keys.now }
    requires keys { All (λ key. key < 2 ^ 90) keys.now }
    requires ascending { IsNonDecreasing keys.now }
    requires level { IfSome level (λ level. level ≤ DEEPEST) }
    ensures { IsFront keys.now level result }
{
    match level {
        Some(level) => cell_front(keys, level),
        None => 1,
    }
}

// How many keys, from the first on, lie in its cell at a level.
fn cell_front(keys: &[u128], level: u32) -> usize
    requires some { 1 ≤ length keys.now }
    requires keys { All (λ key. key < 2 ^ 90) keys.now }
    requires ascending { IsNonDecreasing keys.now }
    requires level { level ≤ DEEPEST }
    ensures { IsCellFront keys.now level result }
{
    let past = key_past(keys[0], level);
    let reach = reach_past(keys, past);
    keys[..reach].partition_point(|key| *key < past)
}

// The first key past the cell of a key at a level.
fn key_past(key: u128, level: u32) -> u128
    requires key { key < 2 ^ 90 }
    requires level { level ≤ DEEPEST }
    ensures { result ≡ past_cell key level }
{
    levels_take_three_bits();
    let width = width_at(level);
    key - (key & (width - 1)) + width
}

// How many keys a cell of a level has.
fn width_at(level: u32) -> u128
    requires { level ≤ DEEPEST }
    ensures value { result ≡ 2 ^ (3 * (DEEPEST - level)) }
    ensures fits { result ≤ 2 ^ 90 }
{
    1 << (3 * (DEEPEST - level))
}

// So many keys that none after them lies before `past`. Most cells have few, so twice as many are tried in turn.
fn reach_past(keys: &[u128], past: u128) -> usize
    requires some { 1 ≤ length keys.now }
    ensures some { 1 ≤ result }
    ensures within { result ≤ length keys.now }
    ensures past { result < length keys.now → past ≤ slice_index_or keys.now result 0 }
{
    let mut reach = 1;
    while reach < keys.len() && keys[reach] < past {
        reach += reach.min(keys.len() - reach);
    }
    reach
}
