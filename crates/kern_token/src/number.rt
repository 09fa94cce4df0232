ghost use Rattle.std.specs.Prelude.{◌≡◌, ℕ, ◌*◌, ◌<◌, ◌≤◌, ◌^◌, MatchOption};
ghost use Rattle.std.specs.Str.Parse.{AllDigits, digits_value};

/// The greatest number of a kernel text.
const GREATEST: u64 = i64::MAX as u64;

// The value of the digits, where it is below 2^63.
pub(crate) fn number_of(digits: &[u8]) -> Option<u64>
    requires { AllDigits 10 digits.now }
    ensures { MatchOption result (2 ^ 63 ≤ digits_value 10 digits.now)
        (λ n. (n < 2 ^ 63) × (n ≡ digits_value 10 digits.now)) }
{
    let mut number = 0;
    for byte in digits {
        let digit = u64::from(*byte - b'0');
        if number > (GREATEST - digit) / 10 {
            return None;
        }
        number = 10 * number + digit;
    }
    Some(number)
}
