use crate::Name;

/// A token of a kernel text: what it is, the place of its first byte, and the place after its last.
#[derive(Clone, Debug, PartialEq, Eq, Drop)]
pub struct Token {
    pub kind: TokenKind,
    pub place: u32,
    pub end: u32,
}

#[derive(Clone, Debug, PartialEq, Eq, Drop)]
pub enum TokenKind {
    Name(Name),
    Word(Word),
    /// The number of fraction bits, from 0 to 62.
    Scale(u32),
    /// Below 2^63.
    Number(u64),
    Symbol(Symbol),
}

/// The words of the language, which are no names.
#[derive(Clone, Copy, Debug, PartialEq, Eq, Hash)]
pub enum Word {
    Epi,
    Epj,
    Force,
    Param,
    Num,
    Vec,
    Sum,
    Max,
    Min,
    If,
    Else,
    To,
    Muldiv,
    Isqrt,
    Abs,
}

#[derive(Clone, Copy, Debug, PartialEq, Eq, Hash)]
pub enum Symbol {
    /// `+`
    Plus,
    /// `-`
    Minus,
    /// `*`
    Star,
    /// `/`
    Slash,
    /// `(`
    OpenRound,
    /// `)`
    CloseRound,
    /// `{`
    OpenCurly,
    /// `}`
    CloseCurly,
    /// `,`
    Comma,
    /// `;`
    Semicolon,
    /// `:`
    Colon,
    /// `.`
    Dot,
    /// `=`
    Assign,
    /// `+=`
    Add,
    /// `<`
    Lt,
    /// `<=`
    Le,
    /// `>`
    Gt,
    /// `>=`
    Ge,
    /// `==`
    Eq,
    /// `!=`
    Ne,
    /// `&&`
    And,
    /// `||`
    Or,
    /// `!`
    Not,
}
