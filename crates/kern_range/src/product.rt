#![tactic(auto, using(crate::proofs::ProductLemmas::products))]

ghost use Rattle.std.specs.Prelude.{◌≡◌, false, [], ◌∷◌, ◌+ℤ◌, ◌*ℤ◌, int_le};
ghost use Rattle.std.specs.Int.{int_min, int_max};
ghost use Rattle.pf_num.specs.Exact.{exact};
ghost use Rattle.pf_num.specs.Quotient.{exact_quotient};
ghost use Rattle.kern_range.specs.Intervals as rules;
ghost use Rattle.kern_range.specs.Operators as forms;
ghost use Rattle.kern_range.specs.Intervals.{hull_of};

use crate::interval::{Bad, Interval, holds_zero, only, wider, with_ends};
use crate::range::Spans;
use pf_num::{NumFault, checked_mul, dot, muldiv};

/// Two numbers whose product is meant, which may leave 64 bits.
#[derive(Clone, Copy)]
struct Factors {
    left: i64,
    right: i64,
}

fn factors_of(left: i64, right: i64) -> Factors
    ensures { result.left *ℤ result.right ≡ left *ℤ right }
{
    Factors { left, right }
}

// A product, whole.
fn wide(left: i64, right: i64) -> i128
    ensures { result ≡ left *ℤ right }
{
    i128::from(left) * i128::from(right)
}

fn is_at_most(p: Factors, q: Factors) -> bool
    ensures { result ≡ int_le (p.left *ℤ p.right) (q.left *ℤ q.right) }
{
    wide(p.left, p.right) <= wide(q.left, q.right)
}

// Of two products the lesser.
fn lesser(p: Factors, q: Factors) -> Factors
    ensures { result.left *ℤ result.right ≡ int_min (p.left *ℤ p.right) (q.left *ℤ q.right) }
{
    if is_at_most(p, q) { p } else { q }
}

// And the greater.
fn greater(p: Factors, q: Factors) -> Factors
    ensures { result.left *ℤ result.right ≡ int_max (p.left *ℤ p.right) (q.left *ℤ q.right) }
{
    if is_at_most(p, q) { q } else { p }
}

// The least product of numbers of two intervals, where both are one name or not.
fn least(one_name: bool, a: Interval, b: Interval) -> Factors
    ensures { result.left *ℤ result.right ≡ (rules.product one_name a b).least }
{
    if one_name {
        least_square(a)
    } else {
        least_product(a, b)
    }
}

fn greatest(one_name: bool, a: Interval, b: Interval) -> Factors
    ensures { result.left *ℤ result.right ≡ (rules.product one_name a b).greatest }
{
    if one_name {
        greatest_square(a)
    } else {
        greatest_product(a, b)
    }
}

fn least_product(a: Interval, b: Interval) -> Factors
    ensures { result.left *ℤ result.right ≡ (rules.product false a b).least }
{
    least_corner(a.least, a.greatest, b.least, b.greatest)
}

fn greatest_product(a: Interval, b: Interval) -> Factors
    ensures { result.left *ℤ result.right ≡ (rules.product false a b).greatest }
{
    greatest_corner(a.least, a.greatest, b.least, b.greatest)
}

// The least product of one of the first two numbers by one of the others.
fn least_corner(a: i64, b: i64, c: i64, d: i64) -> Factors
    ensures { result.left *ℤ result.right ≡ int_min (int_min (int_min (a *ℤ c) (a *ℤ d)) (b *ℤ c)) (b *ℤ d) }
{
    let first = lesser(factors_of(a, c), factors_of(a, d));
    let second = lesser(first, factors_of(b, c));
    lesser(second, factors_of(b, d))
}

fn greatest_corner(a: i64, b: i64, c: i64, d: i64) -> Factors
    ensures { result.left *ℤ result.right ≡ int_max (int_max (int_max (a *ℤ c) (a *ℤ d)) (b *ℤ c)) (b *ℤ d) }
{
    let first = greater(factors_of(a, c), factors_of(a, d));
    let second = greater(first, factors_of(b, c));
    greater(second, factors_of(b, d))
}

fn least_square(a: Interval) -> Factors
    ensures { result.left *ℤ result.right ≡ (rules.square a).least }
{
    if holds_zero(a) {
        factors_of(0, 0)
    } else {
        lesser(
            factors_of(a.least, a.least),
            factors_of(a.greatest, a.greatest),
        )
    }
}

fn greatest_square(a: Interval) -> Factors
    ensures { result.left *ℤ result.right ≡ (rules.square a).greatest }
{
    greater(
        factors_of(a.least, a.least),
        factors_of(a.greatest, a.greatest),
    )
}

pub(crate) fn product(one_name: bool, a: Interval, b: Interval) -> Result<Interval, Bad>
    ensures { result ≡ rules.narrow (rules.product one_name a b) }
{
    let low = least(one_name, a, b);
    let high = greatest(one_name, a, b);
    with_ends(
        checked_mul(low.left, low.right),
        checked_mul(high.left, high.right),
    )
}

/// The sum of three products.
pub(crate) fn inner(one_name: bool, a: Spans, b: Spans) -> Result<Interval, Bad>
    ensures { result ≡ rules.narrow (forms.inner one_name a b) }
{
    let low = total(
        least(one_name, a.x, b.x),
        least(one_name, a.y, b.y),
        least(one_name, a.z, b.z),
    );
    let high = total(
        greatest(one_name, a.x, b.x),
        greatest(one_name, a.y, b.y),
        greatest(one_name, a.z, b.z),
    );
    with_ends(low, high)
}

#[tactic(auto, using(crate::proofs::ProductLemmas::sums))]
fn total(x: Factors, y: Factors, z: Factors) -> Result<i64, NumFault>
    ensures { result ≡ exact ((x.left *ℤ x.right) +ℤ ((y.left *ℤ y.right) +ℤ (z.left *ℤ z.right))) }
{
    dot([x.left, y.left, z.left], [x.right, y.right, z.right])
}

/// Toward zero.
pub(crate) fn quotient(a: Interval, c: Interval) -> Result<Interval, Bad>
    ensures { result ≡ rules.quotient a c }
{
    quotients(least_end(a), greatest_end(a), c)
}

/// The quotient of a product that isn't narrowed.
pub(crate) fn product_quotient(
    one_name: bool,
    a: Interval,
    b: Interval,
    c: Interval,
) -> Result<Interval, Bad>
    ensures { result ≡ rules.quotient (rules.product one_name a b) c }
{
    quotients(least(one_name, a, b), greatest(one_name, a, b), c)
}

// Of a dividend with these ends.
fn quotients(low: Factors, high: Factors, c: Interval) -> Result<Interval, Bad>
    ensures { result ≡ rules.quotient
        (record { least = low.left *ℤ low.right; greatest = high.left *ℤ high.right }) c }
{
    if holds_zero(c) {
        return Err(Bad);
    }
    hull(
        by_least(low, c),
        by_greatest(low, c),
        by_least(high, c),
        by_greatest(high, c),
    )
}

fn by_least(dividend: Factors, c: Interval) -> Result<i64, NumFault>
    ensures { result ≡ exact_quotient (dividend.left *ℤ dividend.right) c.least }
{
    muldiv(dividend.left, dividend.right, c.least)
}

fn by_greatest(dividend: Factors, c: Interval) -> Result<i64, NumFault>
    ensures { result ≡ exact_quotient (dividend.left *ℤ dividend.right) c.greatest }
{
    muldiv(dividend.left, dividend.right, c.greatest)
}

#[tactic(auto, using(crate::proofs::ProductLemmas::sums))]
fn least_end(a: Interval) -> Factors
    ensures { result.left *ℤ result.right ≡ a.least }
{
    Factors {
        left: a.least,
        right: 1,
    }
}

#[tactic(auto, using(crate::proofs::ProductLemmas::sums))]
fn greatest_end(a: Interval) -> Factors
    ensures { result.left *ℤ result.right ≡ a.greatest }
{
    Factors {
        left: a.greatest,
        right: 1,
    }
}

// The least interval that holds four numbers, where each is there.
fn hull(
    w: Result<i64, NumFault>,
    x: Result<i64, NumFault>,
    y: Result<i64, NumFault>,
    z: Result<i64, NumFault>,
) -> Result<Interval, Bad>
    ensures { result ≡ hull_of w x y z }
{
    match (w, x, y, z) {
        (Ok(w), Ok(x), Ok(y), Ok(z)) => Ok(among(w, x, y, z)),
        _ => Err(Bad),
    }
}

fn among(w: i64, x: i64, y: i64, z: i64) -> Interval
    ensures { result ≡ rules.hull w (x ∷ y ∷ z ∷ []) }
{
    let first = wider(only(w), only(x));
    let second = wider(first, only(y));
    wider(second, only(z))
}
