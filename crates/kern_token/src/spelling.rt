ghost use Rattle.std.specs.Prelude.{◌≡◌, ◌≢◌, ℕ, ◌≤◌, [], ◌∷◌, MatchOption};
ghost use Rattle.std.specs.Fmt.{decimal};
ghost use Rattle.kern_token.specs.Pieces.{IsScale};
ghost use Rattle.kern_token.specs.Spelling.{word_text, symbol_text};
ghost use Rattle.kern_token.specs.declared.limits.TheConstants.{MOST_SCALE};
ghost use Rattle.kern_token.specs.declared.token.Symbol.{Symbol};
ghost use Rattle.kern_token.specs.declared.token.Word.{Word};

use crate::{Symbol, Word};

pub(crate) fn word_of(text: &[u8]) -> Option<Word>
    ensures { MatchOption result ((word : Word) → text.now ≢ word_text word)
        (λ word. text.now ≡ word_text word) }
{
    let word = match text {
        b"EPI" => Word::Epi,
        b"EPJ" => Word::Epj,
        b"FORCE" => Word::Force,
        b"PARAM" => Word::Param,
        b"num" => Word::Num,
        b"vec" => Word::Vec,
        b"sum" => Word::Sum,
        b"max" => Word::Max,
        b"min" => Word::Min,
        b"if" => Word::If,
        b"else" => Word::Else,
        b"to" => Word::To,
        b"muldiv" => Word::Muldiv,
        b"isqrt" => Word::Isqrt,
        b"abs" => Word::Abs,
        _ => return None,
    };
    Some(word)
}

// The scale that the digits are the decimal form of.
#[tactic(auto, using(crate::proofs::Decimals::decimal_lengths))]
fn short_decimal(digits: &[u8]) -> Option<u32>
    ensures { MatchOption result ((n : ℕ) → n ≤ MOST_SCALE → digits.now ≢ decimal n)
        (λ n. (n ≤ MOST_SCALE) × (digits.now ≡ decimal n)) }
{
    match *digits {
        [ones] => one_digit(ones),
        [tens, ones] => two_digits(tens, ones),
        _ => None,
    }
}

#[tactic(auto, using(crate::proofs::Decimals::one_digit_from_decimal, crate::proofs::Decimals::decimal_of_one))]
fn one_digit(ones: u8) -> Option<u32>
    ensures { MatchOption result ((n : ℕ) → n ≤ MOST_SCALE → ones ∷ [] ≢ decimal n)
        (λ n. (n ≤ MOST_SCALE) × (ones ∷ [] ≡ decimal n)) }
{
    match ones {
        b'0'..=b'9' => Some(u32::from(ones - b'0')),
        _ => None,
    }
}

#[tactic(auto, using(crate::proofs::Decimals::two_digits_from_decimal, crate::proofs::Decimals::decimal_of_two))]
fn two_digits(tens: u8, ones: u8) -> Option<u32>
    ensures { MatchOption result ((n : ℕ) → n ≤ MOST_SCALE → tens ∷ ones ∷ [] ≢ decimal n)
        (λ n. (n ≤ MOST_SCALE) × (tens ∷ ones ∷ [] ≡ decimal n)) }
{
    match (tens, ones) {
        (b'1'..=b'5', b'0'..=b'9') | (b'6', b'0'..=b'2') => {
            Some(10 * u32::from(tens - b'0') + u32::from(ones - b'0'))
        }
        _ => None,
    }
}

pub(crate) fn scale_of(text: &[u8]) -> Option<u32>
    ensures { MatchOption result ((scale : ℕ) → IsScale scale text.now → ⊥)
        (λ scale. IsScale scale text.now) }
{
    match text {
        [b'S', digits @ ..] => short_decimal(digits),
        _ => None,
    }
}

pub(crate) fn double_symbol(first: u8, second: u8) -> Option<Symbol>
    ensures { MatchOption result ((symbol : Symbol) → symbol_text symbol ≢ first ∷ second ∷ [])
        (λ symbol. symbol_text symbol ≡ first ∷ second ∷ []) }
{
    let symbol = match (first, second) {
        (b'+', b'=') => Symbol::Add,
        (b'<', b'=') => Symbol::Le,
        (b'>', b'=') => Symbol::Ge,
        (b'=', b'=') => Symbol::Eq,
        (b'!', b'=') => Symbol::Ne,
        (b'&', b'&') => Symbol::And,
        (b'|', b'|') => Symbol::Or,
        _ => return None,
    };
    Some(symbol)
}

pub(crate) fn single_symbol(first: u8) -> Option<Symbol>
    ensures { MatchOption result ((symbol : Symbol) → symbol_text symbol ≢ first ∷ [])
        (λ symbol. symbol_text symbol ≡ first ∷ []) }
{
    let symbol = match first {
        b'+' => Symbol::Plus,
        b'-' => Symbol::Minus,
        b'*' => Symbol::Star,
        b'/' => Symbol::Slash,
        b'(' => Symbol::OpenRound,
        b')' => Symbol::CloseRound,
        b'{' => Symbol::OpenCurly,
        b'}' => Symbol::CloseCurly,
        b',' => Symbol::Comma,
        b';' => Symbol::Semicolon,
        b':' => Symbol::Colon,
        b'.' => Symbol::Dot,
        b'=' => Symbol::Assign,
        b'<' => Symbol::Lt,
        b'>' => Symbol::Gt,
        b'!' => Symbol::Not,
        _ => return None,
    };
    Some(symbol)
}
