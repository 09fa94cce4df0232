ghost use Rattle.std.specs.Prelude.{◌≡◌, ◌+◌, ◌<◌, ◌≤◌, ◌^◌, ◌++◌, None, Some, OnOk, IfErr, IsTrue, length, take, drop};
ghost use Rattle.std.specs.List.{list_all};
ghost use Rattle.pf_num.specs.Exact.{is_i64};
ghost use Rattle.force_phase.specs.Rows as rules;
ghost use Rattle.run_model.specs.Force.{axes_of};
ghost use Rattle.force_phase.specs.Outcome.{row_width};

use crate::tally::Tally;
use kern_tree::Kind;
use kern_types::ForceVar;
use run_model::What;

// The least `i64`, and the first number past the greatest.
const LEAST_I64: i128 = -(1 << 63);

const PAST_I64: i128 = 1 << 63;

/// Writes the numbers of all FORCE variables in order of declaration, or finds the first variable whose sum isn't
/// an `i64`.
pub(crate) fn row(forces: &[ForceVar], tallies: &[Tally], numbers: &mut [i64]) -> Result<(), What>
    requires same { length tallies.now ≡ length forces.now }
    requires few { length forces.now < 2 ^ 31 }
    requires width { length numbers.old ≡ row_width forces.now }
    ensures width { length numbers.new ≡ length numbers.old }
    ensures row { OnOk result (numbers.new ≡ rules.row_of forces.now tallies.now) }
    ensures no_fault { OnOk result (rules.row_fault 1 forces.now tallies.now ≡ None) }
    ensures fault { IfErr result (λ what. rules.row_fault 1 forces.now tallies.now ≡ Some what) }
{
    let mut place = 0;
    for k in 0..forces.len() {
        if !fit(forces[k].kind, &tallies[k]) {
            return Err(What::Sum(k as u32 + 1));
        }
        put_numbers(numbers, place, forces[k].kind, &tallies[k]);
        place += axes(forces[k].kind);
    }
    Ok(())
}

/// How many numbers all FORCE variables have.
pub(crate) fn row_width(forces: &[ForceVar]) -> usize
    requires { length forces.now < 2 ^ 31 }
    ensures { result ≡ row_width forces.now }
{
    let mut width = 0;
    for v in forces {
        width += axes(v.kind);
    }
    width
}

// How many numbers a variable of this kind has.
fn axes(kind: Kind) -> usize
    ensures value { result ≡ length (axes_of kind) }
    ensures few { result ≤ 3 }
{
    match kind {
        Kind::Num => 1,
        Kind::Vec3 => 3,
    }
}

// Whether the numbers of a variable of this kind are `i64`s.
fn fit(kind: Kind, t: &Tally) -> bool
    ensures { result ≡ list_all is_i64 (rules.numbers_of kind t.now) }
{
    match kind {
        Kind::Num => fits(t.x),
        Kind::Vec3 => fits(t.x) && fits(t.y) && fits(t.z),
    }
}

fn fits(number: i128) -> bool
    ensures { result ≡ is_i64 number }
{
    LEAST_I64 <= number && number < PAST_I64
}

// Writes the numbers of a variable of this kind from a place on.
fn put_numbers(numbers: &mut [i64], place: usize, kind: Kind, t: &Tally)
    requires fit { IsTrue (list_all is_i64 (rules.numbers_of kind t.now)) }
    requires within { place + length (axes_of kind) ≤ length numbers.old }
    ensures { numbers.new ≡ take place numbers.old ++ rules.numbers_of kind t.now
        ++ drop (place + length (axes_of kind)) numbers.old }
{
    match kind {
        Kind::Num => put(numbers, place, &[narrow(t.x)]),
        Kind::Vec3 => put(numbers, place, &[narrow(t.x), narrow(t.y), narrow(t.z)]),
    }
}

fn narrow(number: i128) -> i64
    requires { IsTrue (is_i64 number) }
    ensures { result ≡ number }
{
    number as i64
}

fn put(numbers: &mut [i64], place: usize, part: &[i64])
    requires { place + length part.now ≤ length numbers.old }
    ensures { numbers.new ≡ take place numbers.old ++ part.now ++ drop (place + length part.now) numbers.old }
{
    numbers[place..place + part.len()].copy_from_slice(part);
}
