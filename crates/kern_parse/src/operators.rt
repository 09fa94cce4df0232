ghost use Rattle.std.specs.Prelude.{◌≡◌};
ghost use Rattle.std.specs.Option.{option_copied};
ghost use Rattle.kern_parse.specs.inner.Operators as spec;

use kern_token::{Symbol, TokenKind, Word};
use kern_tree::{Op1, Op2, Op3};

/// The levels whose operators are read in a chain, from the weakest on. The relations, of which one
/// at most is read, stand between `And` and `Sum`.
#[derive(Clone, Copy)]
pub(crate) enum Level {
    Or,
    And,
    Sum,
    Product,
}

pub(crate) fn binary(level: Level, next: Option<&TokenKind>) -> Option<Op2>
    ensures { result ≡ spec.binary_of level (option_copied next.entry) }
{
    let TokenKind::Symbol(symbol) = next? else {
        return None;
    };
    match (level, *symbol) {
        (Level::Or, Symbol::Or) => Some(Op2::Or),
        (Level::And, Symbol::And) => Some(Op2::And),
        (Level::Sum, Symbol::Plus) => Some(Op2::Add),
        (Level::Sum, Symbol::Minus) => Some(Op2::Sub),
        (Level::Product, Symbol::Star) => Some(Op2::Mul),
        (Level::Product, Symbol::Slash) => Some(Op2::Div),
        _ => None,
    }
}

pub(crate) fn relation(next: Option<&TokenKind>) -> Option<Op2>
    ensures { result ≡ spec.relation_of (option_copied next.entry) }
{
    let TokenKind::Symbol(symbol) = next? else {
        return None;
    };
    match symbol {
        Symbol::Lt => Some(Op2::Lt),
        Symbol::Le => Some(Op2::Le),
        Symbol::Gt => Some(Op2::Gt),
        Symbol::Ge => Some(Op2::Ge),
        Symbol::Eq => Some(Op2::Eq),
        Symbol::Ne => Some(Op2::Ne),
        _ => None,
    }
}

pub(crate) fn prefix(next: Option<&TokenKind>) -> Option<Op1>
    ensures { result ≡ spec.prefix_of (option_copied next.entry) }
{
    let TokenKind::Symbol(symbol) = next? else {
        return None;
    };
    match symbol {
        Symbol::Minus => Some(Op1::Neg),
        Symbol::Not => Some(Op1::Not),
        _ => None,
    }
}

/// A word that takes expressions in brackets.
#[derive(Clone, Copy)]
pub(crate) enum Call {
    One(Op1),
    Two(Op2),
    Three(Op3),
    To,
}

pub(crate) fn call_of(word: Word) -> Option<Call>
    ensures { result ≡ spec.call_of word }
{
    match word {
        Word::Isqrt => Some(Call::One(Op1::Isqrt)),
        Word::Abs => Some(Call::One(Op1::Abs)),
        Word::Min => Some(Call::Two(Op2::Least)),
        Word::Max => Some(Call::Two(Op2::Most)),
        Word::Muldiv => Some(Call::Three(Op3::Muldiv)),
        Word::Vec => Some(Call::Three(Op3::Build)),
        Word::To => Some(Call::To),
        _ => None,
    }
}
