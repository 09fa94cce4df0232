ghost use Rattle.std.specs.Prelude.{◌≡◌, ◌+◌, ◌^◌, ◌<◌, ◌≤◌, ℕ, All, IfOk, length, slice_get};
ghost use Rattle.force_phase.specs.Gathered as rules;

use crate::tally::Tally;
use kern_meaning::{Scratch, slot};
use kern_token::Name;
use kern_types::ForceVar;
use std::alloc::{AllocError, Global};

/// No contribution yet to any variable.
pub(crate) fn nothing_yet(alloc: Global, forces: &[ForceVar]) -> Result<Vec<Tally>, AllocError>
    ensures { IfOk result (λ tallies. tallies.items ≡ rules.nothing_yet forces.now) }
{
    let mut tallies = Vec::with_capacity(alloc, forces.len())?;
    for v in forces {
        tallies.push(Tally::nothing(v.combine))?;
    }
    Ok(tallies)
}

/// Makes each variable's tally one of nothing.
pub(crate) fn clear(forces: &[ForceVar], tallies: &mut [Tally])
    requires { length tallies.old ≡ length forces.now }
    ensures { tallies.new ≡ rules.nothing_yet forces.now }
{
    for k in 0..tallies.len() {
        tallies[k] = Tally::nothing(forces[k].combine);
    }
}

/// Adds to each variable's tally what the `+=` of the last pair gave it.
pub(crate) fn gather(
    forces: &[ForceVar],
    targets: &[Name],
    slots: u32,
    s: &Scratch,
    tallies: &mut [Tally],
)
    requires same { length tallies.old ≡ length forces.now }
    requires slots { slots ≡ length s.now.given }
    requires room { All (λ t. t.count < 2 ^ 59) tallies.old }
    ensures value { tallies.new ≡ rules.each_with (rules.with_given targets.now s.now.given) forces.now tallies.old }
    ensures few { (n : ℕ) → All (λ t. t.count ≤ n) tallies.old → All (λ t. t.count ≤ n + slots) tallies.new }
{
    for k in 0..tallies.len() {
        tallies[k] = gathered(&forces[k], targets, slots, s, tallies[k]);
    }
}

// The tally with what the `+=` of the last pair gave the variable.
fn gathered(v: &ForceVar, targets: &[Name], slots: u32, s: &Scratch, t: Tally) -> Tally
    requires slots { slots ≡ length s.now.given }
    requires room { t.count < 2 ^ 59 }
    ensures { result ≡ rules.with_given targets.now s.now.given v.now t }
{
    let mut tally = t;
    for n in 0..slots {
        let gives = gives_to(targets, n, &v.name);
        tally = with_slot(v, gives, slot(s, n), tally);
    }
    tally
}

// Whether the `+=` of this number gives to the variable of this name.
fn gives_to(targets: &[Name], n: u32, name: &Name) -> bool
    ensures { result ≡ rules.gives_to (slice_get targets.now n) name.now }
{
    match targets.get(n as usize) {
        Some(target) => target == name,
        None => false,
    }
}

fn with_slot(v: &ForceVar, gives: bool, numbers: Option<[i64; 3]>, t: Tally) -> Tally
    requires { t.count < 2 ^ 60 }
    ensures value { result ≡ rules.with_slot v.now gives numbers t }
    ensures few { result.count ≤ t.count + 1 }
{
    match numbers {
        Some(numbers) if gives => t.with(v.combine, numbers),
        _ => t,
    }
}
