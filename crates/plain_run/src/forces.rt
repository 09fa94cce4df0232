ghost use Rattle.std.specs.Prelude.{◌≡◌, ◌++◌, ◌<◌, ◌^◌, All, IfOk, OnOk, IfErr, Ok};
ghost use Rattle.std.specs.Prelude.{Err, None, Some, IsTrue, true, flat_map, length, map, slice_get};
ghost use Rattle.std.specs.List.{filter_map, list_all, zip};
ghost use Rattle.pf_num.specs.Exact.{is_i64};
ghost use Rattle.pf_model.specs.Interaction.{entry_source};
ghost use Rattle.kern_types.specs.Declarations.{forces_of};
ghost use Rattle.kern_meaning.specs.Pair.{targets_in, given_to};
ghost use Rattle.kern_meaning.specs.Prepared.{IsMadeFor};
ghost use Rattle.kern_meaning.specs.Values.{components};
ghost use Rattle.kern_meaning.specs.declared.stop.PairStop.TheVariants.{Fault as PairFaulted};
ghost use Rattle.run_model.specs.Force as rules;
ghost use Rattle.plain_run.specs.Lists.{HasMembers};
ghost use Rattle.kern_tree.specs.declared.kernel.Combine.TheVariants.{Sum, Max, Min};
ghost use Rattle.plain_run.specs.Forces.{IsForceStop, IsSumStop, numbers_along, axis_numbers};
ghost use Rattle.plain_run.specs.Forces.{force_of, gives_to, slot_numbers, pairs_with, row_over, first_sum_fault};

use kern_meaning::{PairFault, Scratch, for_kernel, pair, slot};
use kern_token::Name;
use kern_tree::{Combine, Kind};
use kern_types::{ForceVar, Typed, forces, forces_and_slots_are_few, kernel, slots, targets};
use moments::item;
use pf_geom::Edge;
use pf_model::{Body, Entry, Item, Moment};
use pf_num::OutOfMemory;
use run_model::{Row, What, exerted, received};
use std::alloc::{AllocError, Global};

// The least `i64`, and the first number past the greatest.
const LEAST_I64: i128 = -(1 << 63);

const PAST_I64: i128 = 1 << 63;

/// Why a particle has no forces.
#[derive(Clone, Copy, Debug, PartialEq, Eq)]
pub enum ForceStop {
    /// The first fault of its pairs or of its sums.
    Fault(What),
    /// Memory ran out.
    Memory,
}

impl From<AllocError> for ForceStop {
    ghost use Rattle.std.specs.Prelude.{◌≡◌};
    ghost use Rattle.plain_run.specs.declared.forces.ForceStop.TheVariants.{Memory};

    ghost from_gives = { λ _ stop. stop ≡ Memory };

    fn from(_error: AllocError) -> ForceStop {
        ForceStop::Memory
    }
}

impl From<OutOfMemory> for ForceStop {
    ghost use Rattle.std.specs.Prelude.{◌≡◌};
    ghost use Rattle.plain_run.specs.declared.forces.ForceStop.TheVariants.{Memory};

    ghost from_gives = { λ _ stop. stop ≡ Memory };

    fn from(_error: OutOfMemory) -> ForceStop {
        ForceStop::Memory
    }
}

/// The forces on a particle by a list, by the definition: for one FORCE variable after another all pairs are
/// evaluated again, and what they give it is kept and then combined. `Fault` is the first pair that faults, by list
/// place, or where none does the first FORCE variable whose sum isn't an `i64`. It serves tests.
pub fn slow_forces(
    alloc: Global,
    t: &Typed,
    edge: Edge,
    entries: &[Entry],
    i: &Body,
) -> Result<Row, ForceStop>
    requires { All HasMembers entries.now }
    ensures forces { IfOk result (λ row. row ≡ rules.force_row edge t.now entries.now i.now) }
    ensures no_fault { OnOk result (rules.force_fault edge t.now entries.now i.now ≡ None) }
    ensures fault { IfErr result (IsForceStop (rules.force_fault edge t.now entries.now i.now)) }
{
    forces_and_slots_are_few();
    let _kernel = kernel(t);
    let mut scratch = for_kernel(alloc, t)?;
    let targets = targets(alloc, t)?;
    if let Some(what) = first_pair_fault(t, edge, entries, i, &mut scratch) {
        return Err(ForceStop::Fault(what));
    }
    match row_of(alloc, t, edge, entries, i, &targets, &mut scratch) {
        Ok(row) => Ok(Row::from_vec(row)),
        Err(stop) => Err(stop),
    }
}

// The first fault of the pairs of a particle, by list place.
fn first_pair_fault(
    t: &Typed,
    edge: Edge,
    entries: &[Entry],
    i: &Body,
    scratch: &mut Scratch,
) -> Option<What>
    requires members { All HasMembers entries.now }
    requires made { IsMadeFor t.now scratch.old }
    ensures made { IsMadeFor t.now scratch.new }
    ensures value { result ≡ rules.first_given rules.pair_fault (rules.pairs_of edge t.now entries.now i.now) }
{
    for entry in entries {
        if let Some(what) = fault_with(t, edge, i, entry, scratch) {
            return Some(what);
        }
    }
    None
}

// The fault of a particle's pair with an entry. With itself it has none.
fn fault_with(t: &Typed, edge: Edge, i: &Body, entry: &Entry, scratch: &mut Scratch) -> Option<What>
    requires members { HasMembers entry.now }
    requires made { IsMadeFor t.now scratch.old }
    ensures made { IsMadeFor t.now scratch.new }
    ensures value { result ≡ rules.first_given rules.pair_fault (pairs_with edge t.now i.now entry.now) }
{
    if !is_other(i, entry) {
        return None;
    }
    match pair_with(t, edge, i, entry, scratch) {
        Ok(()) => None,
        Err(fault) => Some(What::Pair(fault.kind, fault.statement)),
    }
}

// The numbers of all FORCE variables in order of declaration, or the first variable whose sum isn't an `i64`.
fn row_of(
    alloc: Global,
    t: &Typed,
    edge: Edge,
    entries: &[Entry],
    i: &Body,
    targets: &[Name],
    scratch: &mut Scratch,
) -> Result<Vec<i64>, ForceStop>
    requires members { All HasMembers entries.now }
    requires made { IsMadeFor t.now scratch.old }
    requires targets { targets.now ≡ targets_in t.now.body }
    requires few { length (forces_of t.now.decls) < 2 ^ 30 }
    ensures row { IfOk result (λ row. row.items ≡ row_over t.now (rules.pairs_of edge t.now entries.now i.now)) }
    ensures no_fault { OnOk result (first_sum_fault t.now (rules.pairs_of edge t.now entries.now i.now) ≡ None) }
    ensures fault { IfErr result (IsForceStop
        (first_sum_fault t.now (rules.pairs_of edge t.now entries.now i.now))) }
{
    let forces = forces(t);
    let mut row = Vec::new(alloc);
    for k in 0..forces.len() {
        let v = &forces[k];
        let values = values_of(alloc, t, edge, entries, i, v, targets, scratch)?;
        match push_force(&mut row, v, k as u32 + 1, &values) {
            Ok(()) => {}
            Err(stop) => return Err(stop),
        }
    }
    Ok(row)
}

// What the pairs of a particle give a FORCE variable, along x, y and z. A pair that faults gives nothing.
fn values_of(
    alloc: Global,
    t: &Typed,
    edge: Edge,
    entries: &[Entry],
    i: &Body,
    v: &ForceVar,
    targets: &[Name],
    scratch: &mut Scratch,
) -> Result<Vec<[i64; 3]>, AllocError>
    requires members { All HasMembers entries.now }
    requires made { IsMadeFor t.now scratch.old }
    requires targets { targets.now ≡ targets_in t.now.body }
    ensures made { IsMadeFor t.now scratch.new }
    ensures value { IfOk result (λ values. values.items
        ≡ map components (flat_map (rules.contributions t.now v.now) (rules.pairs_of edge t.now entries.now i.now))) }
{
    let mut values = Vec::new(alloc);
    for entry in entries {
        push_pair(&mut values, t, edge, i, entry, v, targets, scratch)?;
    }
    Ok(values)
}

// Adds what a particle's pair with an entry gives a FORCE variable. With itself it gives nothing.
fn push_pair(
    values: &mut Vec<[i64; 3]>,
    t: &Typed,
    edge: Edge,
    i: &Body,
    entry: &Entry,
    v: &ForceVar,
    targets: &[Name],
    scratch: &mut Scratch,
) -> Result<(), AllocError>
    requires members { HasMembers entry.now }
    requires made { IsMadeFor t.now scratch.old }
    requires targets { targets.now ≡ targets_in t.now.body }
    ensures made { IsMadeFor t.now scratch.new }
    ensures value { OnOk result (values.new.items ≡ values.old.items
        ++ map components (flat_map (rules.contributions t.now v.now) (pairs_with edge t.now i.now entry.now))) }
{
    if !is_other(i, entry) {
        return Ok(());
    }
    match pair_with(t, edge, i, entry, scratch) {
        Ok(()) => push_given(values, v, targets, slots(t), scratch),
        Err(_) => Ok(()),
    }
}

// An entry that isn't the particle itself.
fn is_other(i: &Body, entry: &Entry) -> bool
    ensures { result ≡ rules.is_other i.now entry.now }
{
    match entry {
        Entry::Cell(..) => true,
        Entry::One(body) => body.id != i.id,
    }
}

// The pair of a particle with an entry.
fn pair_with(
    t: &Typed,
    edge: Edge,
    i: &Body,
    entry: &Entry,
    scratch: &mut Scratch,
) -> Result<(), PairFault>
    requires members { HasMembers entry.now }
    requires made { IsMadeFor t.now scratch.old }
    ensures made { IsMadeFor t.now scratch.new }
    ensures ok { OnOk result (rules.pair_with edge t.now i.now entry.now ≡ Ok scratch.new.given) }
    ensures fault { IfErr result (λ fault. rules.pair_with edge t.now i.now entry.now ≡ Err (PairFaulted fault)) }
{
    let item = exerted(edge, i.at, &item_of(entry));
    pair(t, &received(edge, i), &item, scratch)
}

// An entry as the kernel sees it.
fn item_of(entry: &Entry) -> Item
    requires { HasMembers entry.now }
    ensures { result ≡ entry_source entry.now }
{
    match entry {
        Entry::Cell(_, moment) => item(moment),
        Entry::One(body) => item(&Moment::of_one(body)),
    }
}

// Adds what the `+=` of the last pair gave a FORCE variable.
fn push_given(
    values: &mut Vec<[i64; 3]>,
    v: &ForceVar,
    targets: &[Name],
    slots: u32,
    scratch: &Scratch,
) -> Result<(), AllocError>
    requires { slots ≡ length scratch.now.given }
    ensures { OnOk result (values.new.items ≡ values.old.items
        ++ map components (filter_map (given_to v.now.name) (zip targets.now scratch.now.given))) }
{
    for n in 0..slots {
        push_slot(values, gives_to(targets, n, &v.name), slot(scratch, n))?;
    }
    Ok(())
}

// Adds what one `+=` gave, if anything, where it gives to the variable.
fn push_slot(
    values: &mut Vec<[i64; 3]>,
    gives: bool,
    numbers: Option<[i64; 3]>,
) -> Result<(), AllocError>
    ensures { OnOk result (values.new.items ≡ values.old.items ++ slot_numbers gives numbers) }
{
    match numbers {
        Some(numbers) if gives => {
            values.push(numbers)?;
            Ok(())
        }
        _ => Ok(()),
    }
}

// Whether the `+=` of this number gives to the variable of this name.
fn gives_to(targets: &[Name], n: u32, name: &Name) -> bool
    ensures { result ≡ gives_to (slice_get targets.now n) name.now }
{
    match targets.get(n as usize) {
        Some(target) => target == name,
        None => false,
    }
}

// Adds the numbers of a FORCE variable, or tells that one isn't an `i64`.
fn push_force(
    row: &mut Vec<i64>,
    v: &ForceVar,
    number: u32,
    values: &[[i64; 3]],
) -> Result<(), ForceStop>
    ensures force { OnOk result (row.new.items ≡ row.old.items ++ force_of v.now values.now) }
    ensures fits { OnOk result (list_all is_i64 (force_of v.now values.now) ≡ true) }
    ensures fault { IfErr result (IsSumStop v.now number values.now) }
{
    let x = combined(v.combine, values, 0);
    let y = combined(v.combine, values, 1);
    let z = combined(v.combine, values, 2);
    if !fit(v.kind, x, y, z) {
        return Err(ForceStop::Fault(What::Sum(number)));
    }
    push_numbers(row, v.kind, x, y, z)?;
    Ok(())
}

// Whether the numbers of a variable of this kind are `i64`s.
fn fit(kind: Kind, x: i128, y: i128, z: i128) -> bool
    ensures { result ≡ list_all is_i64 (axis_numbers kind x y z) }
{
    match kind {
        Kind::Num => fits(x),
        Kind::Vec3 => fits(x) && fits(y) && fits(z),
    }
}

fn fits(number: i128) -> bool
    ensures { result ≡ is_i64 number }
{
    LEAST_I64 <= number && number < PAST_I64
}

fn push_numbers(row: &mut Vec<i64>, kind: Kind, x: i128, y: i128, z: i128) -> Result<(), AllocError>
    requires { IsTrue (list_all is_i64 (axis_numbers kind x y z)) }
    ensures { OnOk result (row.new.items ≡ row.old.items ++ axis_numbers kind x y z) }
{
    match kind {
        Kind::Num => {
            row.push(x as i64)?;
            Ok(())
        }
        Kind::Vec3 => row.extend_from_slice(&[x as i64, y as i64, z as i64]),
    }
}

// The exact sum, the greatest or the least of the numbers along an axis.
fn combined(combine: Combine, values: &[[i64; 3]], axis: usize) -> i128
    requires { axis < 3 }
    ensures { result ≡ numbers_along combine values.now axis }
{
    match combine {
        Combine::Sum => sum_along(values, axis),
        Combine::Max => i128::from(greatest_along(values, axis)),
        Combine::Min => i128::from(least_along(values, axis)),
    }
}

fn sum_along(values: &[[i64; 3]], axis: usize) -> i128
    requires { axis < 3 }
    ensures { result ≡ numbers_along Sum values.now axis }
{
    let mut sum = 0;
    for value in values {
        sum += i128::from(value[axis]);
    }
    sum
}

fn greatest_along(values: &[[i64; 3]], axis: usize) -> i64
    requires { axis < 3 }
    ensures { result ≡ numbers_along Max values.now axis }
{
    let mut greatest = i64::MIN;
    for value in values {
        greatest = greatest.max(value[axis]);
    }
    greatest
}

fn least_along(values: &[[i64; 3]], axis: usize) -> i64
    requires { axis < 3 }
    ensures { result ≡ numbers_along Min values.now axis }
{
    let mut least = i64::MAX;
    for value in values {
        least = least.min(value[axis]);
    }
    least
}
