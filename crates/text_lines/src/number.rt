ghost use Rattle.std.specs.Prelude.{◌≡◌, ◌-◌, ◌^◌, min, Some, None, if◌then◌else◌};
ghost use Rattle.std.specs.Str.Parse.{digits_value};
ghost use Rattle.text_lines.specs.Numbers.{is_digits, is_integer, integer_value, saturated, digits_in, integer_in};

/// Why a field doesn't give a number.
#[derive(Clone, Copy, Debug, PartialEq, Eq)]
pub enum NumberFault {
    /// The field isn't written as a number.
    NoNumber,
    /// The number is past the limits.
    OutOfRange,
}

/// The number that the field writes in digits alone, where it is from `least` to `most`.
pub fn digits_in(field: &[u8], least: u32, most: u32) -> Result<u32, NumberFault>
    ensures { result ≡ digits_in least most field.now }
{
    let number = magnitude(field).ok_or(NumberFault::NoNumber)?;
    if u64::from(least) <= number && number <= u64::from(most) {
        Ok(number as u32)
    } else {
        Err(NumberFault::OutOfRange)
    }
}

/// The number that the field writes in digits, which one minus may precede, where it is from `least`
/// to `most`.
pub fn integer_in(field: &[u8], least: i64, most: i64) -> Result<i64, NumberFault>
    ensures { result ≡ integer_in least most field.now }
{
    let number = integer(field).ok_or(NumberFault::NoNumber)?;
    if i128::from(least) <= number && number <= i128::from(most) {
        Ok(number as i64)
    } else {
        Err(NumberFault::OutOfRange)
    }
}

// The integer that the field writes, as far as 64 bits hold it.
fn integer(field: &[u8]) -> Option<i128>
    ensures { result ≡ (if is_integer field.now then Some (saturated (integer_value field.now)) else None) }
{
    match field {
        [b'-', digits @ ..] => Some(-i128::from(magnitude(digits)?)),
        digits => Some(i128::from(magnitude(digits)?)),
    }
}

// The number that the digits write, or 2^64 - 1 where it is more.
fn magnitude(digits: &[u8]) -> Option<u64>
    ensures { result ≡ (if is_digits digits.now then Some (min (digits_value 10 digits.now) (2 ^ 64 - 1)) else None) }
{
    if digits.is_empty() {
        return None;
    }
    let mut number = 0_u64;
    for byte in digits {
        if !byte.is_ascii_digit() {
            return None;
        }
        let digit = u64::from(*byte - b'0');
        number = number.saturating_mul(10).saturating_add(digit);
    }
    Some(number)
}
