ghost use Rattle.std.specs.Prelude.{◌≡◌};
ghost use Rattle.std.specs.Char.{is_ascii_digit};
ghost use Rattle.std.specs.List.{list_all};
ghost use Rattle.command_line.specs.Number.{numeral_value, number_within};

// The number that a word of digits spells. A sign, which `parse` would read, is no digit.
fn number(word: &str) -> Option<u64>
    ensures { result ≡ numeral_value word.now }
{
    if has_digits_alone(word.as_bytes()) {
        word.parse().ok()
    } else {
        None
    }
}

fn has_digits_alone(word: &[u8]) -> bool
    ensures { result ≡ list_all is_ascii_digit word.now }
{
    word.iter().all(|byte| byte.is_ascii_digit())
}

/// The number that the word spells, where it lies from `least` to `most`.
pub(crate) fn number_within(word: &str, least: u64, most: u64) -> Option<u64>
    ensures { result ≡ number_within least most word.now }
{
    let number = number(word)?;
    if least <= number && number <= most {
        Some(number)
    } else {
        None
    }
}
