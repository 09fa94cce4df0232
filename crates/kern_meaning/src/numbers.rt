ghost use Rattle.std.specs.Prelude.{◌≡◌, ◌+◌, ◌-◌, Some, None, nat_le, if◌then◌else◌};
ghost use Rattle.kern_meaning.specs.Operators as rules;
ghost use Rattle.kern_meaning.specs.Stops.{number_or_fault};

use crate::{Stop, Value};
use pf_num::NumFault;

// The greatest number of fraction bits.
const MOST: u32 = 62;

// A number, or the fault of the operation.
fn number_of(answer: Result<i64, NumFault>) -> Result<i64, Stop>
    ensures { result ≡ number_or_fault answer }
{
    match answer {
        Ok(number) => Ok(number),
        Err(fault) => Err(Stop::Fault(fault)),
    }
}

/// A num at this scale.
pub(crate) fn num(scale: u32, answer: Result<i64, NumFault>) -> Result<Value, Stop>
    ensures { result ≡ rules.num scale answer }
{
    let mantissa = number_of(answer)?;
    Ok(Value::Num(mantissa, scale))
}

/// A vec at this scale, of its components along x, y and z.
pub(crate) fn vec_of(
    scale: u32,
    x: Result<i64, NumFault>,
    y: Result<i64, NumFault>,
    z: Result<i64, NumFault>,
) -> Result<Value, Stop>
    ensures { result ≡ rules.vec_of scale x y z }
{
    let x = number_of(x)?;
    let y = number_of(y)?;
    let z = number_of(z)?;
    Ok(Value::Vec3([x, y, z], scale))
}

/// The scale of a product, where it is at most 62.
pub(crate) fn product_scale(s: u32, t: u32) -> Option<u32>
    ensures { result ≡ (if nat_le (s + t) 62 then Some (s + t) else None) }
{
    s.checked_add(t).filter(|scale| *scale <= MOST)
}

/// The scale of `muldiv`, where it is from 0 to 62.
pub(crate) fn muldiv_scale(s: u32, t: u32, u: u32) -> Option<u32>
    ensures { result ≡ (if rules.muldiv_fits s t u then Some (s + t - u) else None) }
{
    let scale = i64::from(s) + i64::from(t) - i64::from(u);
    match u32::try_from(scale) {
        Ok(scale) if scale <= MOST => Some(scale),
        _ => None,
    }
}
