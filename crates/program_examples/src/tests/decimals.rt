// Digits of the extremes.

use pf_io::push_decimal;
use std::alloc::Global;
use std::test::Fail;

const NUMBERS: [i128; 4] = [i128::MIN, -1, 0, i128::MAX];

const DIGITS: &str =
    "-170141183460469231731687303715884105728 -1 0 170141183460469231731687303715884105727 ";

// Whether these are the digits of the numbers, each with a space behind it.
fn are_digits_of(alloc: Global, digits: &str, numbers: &[i128]) -> Result<bool, Fail> {
    let mut out = Vec::new(alloc);
    for number in numbers {
        push_decimal(&mut out, *number)?;
        out.push(b' ')?;
    }
    Ok(out.as_slice() == digits.as_bytes())
}

#[test]
fn decimals_of_the_extremes(rt: HostRuntime) -> Result<(), Fail> {
    assert!(rt; are_digits_of(rt.alloc(), DIGITS, &NUMBERS)?);
    Ok(())
}
