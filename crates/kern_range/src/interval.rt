#![tactic(auto, using(crate::proofs::IntervalLemmas::ends))]

ghost use Rattle.std.specs.Prelude.{◌≡◌, ◌≤◌};
ghost use Rattle.kern_range.specs.Intervals as rules;

use pf_num::{NumFault, checked_add, checked_neg, checked_sub, rescale, root as checked_root};

/// The numbers from `least` to `greatest`.
#[derive(Clone, Copy)]
pub struct Interval {
    pub least: i64,
    pub greatest: i64,
}

/// A node that may fault: what it can be leaves 64 bits, its divisor can be 0, or its root's argument negative.
#[derive(Clone, Copy)]
pub struct Bad;

/// The interval with these ends, where both are there.
pub(crate) fn with_ends(
    least: Result<i64, NumFault>,
    greatest: Result<i64, NumFault>,
) -> Result<Interval, Bad>
    ensures { result ≡ rules.with_ends least greatest }
{
    match (least, greatest) {
        (Ok(least), Ok(greatest)) => Ok(Interval { least, greatest }),
        _ => Err(Bad),
    }
}

/// One number.
pub(crate) fn only(number: i64) -> Interval
    ensures { result ≡ (record { least = number; greatest = number }) }
{
    Interval {
        least: number,
        greatest: number,
    }
}

/// It doesn't leave 64 bits.
pub(crate) fn kept(a: Interval) -> Result<Interval, Bad>
    ensures { result ≡ rules.narrow a }
{
    Ok(a)
}

pub(crate) fn holds_zero(a: Interval) -> bool
    ensures { result ≡ rules.holds_zero a }
{
    !((0 < a.least && 0 < a.greatest) || (a.least < 0 && a.greatest < 0))
}

/// The least interval that holds two.
pub(crate) fn wider(a: Interval, b: Interval) -> Interval
    ensures { result ≡ rules.wider a b }
{
    Interval {
        least: a.least.min(b.least),
        greatest: a.greatest.max(b.greatest),
    }
}

pub(crate) fn lesser(a: Interval, b: Interval) -> Interval
    ensures { result ≡ rules.lesser a b }
{
    Interval {
        least: a.least.min(b.least),
        greatest: a.greatest.min(b.greatest),
    }
}

pub(crate) fn greater(a: Interval, b: Interval) -> Interval
    ensures { result ≡ rules.greater a b }
{
    Interval {
        least: a.least.max(b.least),
        greatest: a.greatest.max(b.greatest),
    }
}

pub(crate) fn sum(a: Interval, b: Interval) -> Result<Interval, Bad>
    ensures { result ≡ rules.narrow (rules.sum a b) }
{
    with_ends(
        checked_add(a.least, b.least),
        checked_add(a.greatest, b.greatest),
    )
}

pub(crate) fn difference(a: Interval, b: Interval) -> Result<Interval, Bad>
    ensures { result ≡ rules.narrow (rules.difference a b) }
{
    with_ends(
        checked_sub(a.least, b.greatest),
        checked_sub(a.greatest, b.least),
    )
}

pub(crate) fn negative(a: Interval) -> Result<Interval, Bad>
    ensures { result ≡ rules.narrow (rules.negative a) }
{
    with_ends(checked_neg(a.greatest), checked_neg(a.least))
}

pub(crate) fn magnitude(a: Interval) -> Result<Interval, Bad>
    ensures { result ≡ rules.narrow (rules.magnitude a) }
{
    magnitude_between(a.least, a.greatest)
}

fn magnitude_between(least: i64, greatest: i64) -> Result<Interval, Bad>
    ensures { result ≡ rules.narrow (rules.magnitude (record { least = least; greatest = greatest })) }
{
    if 0 <= least {
        return Ok(Interval { least, greatest });
    }
    if greatest <= 0 {
        return with_ends(checked_neg(greatest), checked_neg(least));
    }
    match checked_neg(least) {
        Ok(size) => Ok(Interval {
            least: 0,
            greatest: size.max(greatest),
        }),
        Err(_) => Err(Bad),
    }
}

pub(crate) fn root(a: Interval) -> Result<Interval, Bad>
    ensures { result ≡ rules.root a }
{
    with_ends(checked_root(a.least), checked_root(a.greatest))
}

/// From one scale to another, both at most 62.
pub(crate) fn rescaled(a: Interval, from: u32, to: u32) -> Result<Interval, Bad>
    requires from_in_range { from ≤ 62 }
    requires to_in_range { to ≤ 62 }
    ensures { result ≡ rules.narrow (rules.rescaled_ends a from to) }
{
    with_ends(rescale(a.least, from, to), rescale(a.greatest, from, to))
}
