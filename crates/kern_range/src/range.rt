ghost use Rattle.std.specs.Prelude.{◌≡◌, ◌+◌, ◌-◌, Some, None, nat_le, if◌then◌else◌};
ghost use Rattle.kern_meaning.specs.Operators.{muldiv_fits};
ghost use Rattle.kern_range.specs.Operators as rules;

use crate::interval::{Bad, Interval, wider};

/// What a value can be. The `u32` is its scale.
#[derive(Clone, Copy)]
pub enum Range {
    Num(Interval, u32),
    Vec3(Spans, u32),
    Condition,
}

/// What the components of a vec can be.
#[derive(Clone, Copy)]
pub struct Spans {
    pub x: Interval,
    pub y: Interval,
    pub z: Interval,
}

// The greatest number of fraction bits.
const MOST: u32 = 62;

/// Of a num at this scale.
pub(crate) fn num(scale: u32, answer: Result<Interval, Bad>) -> Result<Range, Bad>
    ensures { result ≡ rules.num scale answer }
{
    Ok(Range::Num(answer?, scale))
}

/// Of a vec at this scale, of its components along x, y and z.
pub(crate) fn vec_of(
    scale: u32,
    x: Result<Interval, Bad>,
    y: Result<Interval, Bad>,
    z: Result<Interval, Bad>,
) -> Result<Range, Bad>
    ensures { result ≡ rules.vec_of scale x y z }
{
    let x = x?;
    let y = y?;
    let z = z?;
    Ok(Range::Vec3(Spans { x, y, z }, scale))
}

/// The scale of a product, where it is at most 62.
pub(crate) fn product_scale(s: u32, t: u32) -> Option<u32>
    ensures { result ≡ (if nat_le (s + t) 62 then Some (s + t) else None) }
{
    s.checked_add(t).filter(|scale| *scale <= MOST)
}

/// The scale of `muldiv`, where it is from 0 to 62.
pub(crate) fn muldiv_scale(s: u32, t: u32, u: u32) -> Option<u32>
    ensures { result ≡ (if muldiv_fits s t u then Some (s + t - u) else None) }
{
    let scale = i64::from(s) + i64::from(t) - i64::from(u);
    match u32::try_from(scale) {
        Ok(scale) if scale <= MOST => Some(scale),
        _ => None,
    }
}

/// The least range that holds both.
pub(crate) fn joined(a: Result<Range, Bad>, b: Result<Range, Bad>) -> Result<Range, Bad>
    ensures { result ≡ rules.joined a b }
{
    match (a, b) {
        (Ok(Range::Num(a, s)), Ok(Range::Num(b, t))) if s == t => Ok(Range::Num(wider(a, b), s)),
        (Ok(Range::Vec3(a, s)), Ok(Range::Vec3(b, t))) if s == t => {
            let x = wider(a.x, b.x);
            let y = wider(a.y, b.y);
            let z = wider(a.z, b.z);
            Ok(Range::Vec3(Spans { x, y, z }, s))
        }
        (Ok(Range::Condition), Ok(Range::Condition)) => Ok(Range::Condition),
        _ => Err(Bad),
    }
}
