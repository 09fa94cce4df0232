use crate::Expr;
use kern_token::Name;
use sqlite_items::Items;

/// A statement. Its place is that of the name it assigns to, or of the word `if`.
#[cycle(statements)]
#[derive(Debug, Drop)]
pub struct Stmt {
    pub place: u32,
    pub act: Act,
}

#[cycle(statements)]
#[derive(Debug, Drop)]
pub enum Act {
    /// `name = expression;`
    Set(Name, Expr),
    /// `name += expression;`
    Give(Name, Expr),
    /// The condition, the block, and the block of `else`, which is empty where there is none.
    If(Expr, Items<Stmt>, Items<Stmt>),
}
