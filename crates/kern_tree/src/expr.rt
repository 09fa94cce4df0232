use kern_token::Name;
use pf_geom::Axis;
use sqlite_items::Boxed;

/// An expression. Its place is that of the literal's number, the name, the operator, the word of a
/// call, or the `.` of a component.
#[cycle(expressions)]
#[derive(Debug, Drop)]
pub struct Expr {
    pub place: u32,
    pub form: Form,
}

#[cycle(expressions)]
#[derive(Debug, Drop)]
pub enum Form {
    /// A literal: the mantissa, and the number of fraction bits.
    Number(u64, u32),
    Name(Name),
    /// A component of a vector.
    Part(Boxed<Expr>, Axis),
    One(Op1, Boxed<Expr>),
    Two(Op2, Boxed<Expr>, Boxed<Expr>),
    Three(Op3, Boxed<Expr>, Boxed<Expr>, Boxed<Expr>),
    /// The value at a scale of this number of fraction bits.
    To(u32, Boxed<Expr>),
}

#[derive(Clone, Copy, Debug, PartialEq, Eq, Hash)]
pub enum Op1 {
    Neg,
    Not,
    Isqrt,
    Abs,
}

#[derive(Clone, Copy, Debug, PartialEq, Eq, Hash)]
pub enum Op2 {
    Add,
    Sub,
    Mul,
    Div,
    Lt,
    Le,
    Gt,
    Ge,
    Eq,
    Ne,
    And,
    Or,
    /// The word `min` of an expression.
    Least,
    /// The word `max` of an expression.
    Most,
}

#[derive(Clone, Copy, Debug, PartialEq, Eq, Hash)]
pub enum Op3 {
    Muldiv,
    /// The word `vec` of an expression.
    Build,
}
