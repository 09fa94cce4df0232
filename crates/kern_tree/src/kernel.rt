use crate::Stmt;
use kern_token::Name;
use sqlite_items::Items;

/// A kernel as it is written: its declarations, and the statements that follow them.
#[derive(Debug, Drop)]
pub struct Kernel {
    pub decls: Items<Decl>,
    pub body: Items<Stmt>,
}

/// A declaration. Its place is that of its first word.
#[derive(Clone, Debug, PartialEq, Eq, Drop)]
pub struct Decl {
    pub place: u32,
    pub name: Name,
    pub what: DeclKind,
}

/// What is declared. The `u32` is the scale, the number of fraction bits.
#[derive(Clone, Debug, PartialEq, Eq, Drop)]
pub enum DeclKind {
    /// A field of the particle that takes, by the field's name.
    Epi(Kind, u32, Name),
    /// A field of the item that gives, by the field's name.
    Epj(Kind, u32, Name),
    /// A force, and how its contributions are combined.
    Force(Kind, u32, Combine),
    /// A constant.
    Param(u32, i64),
}

#[derive(Clone, Copy, Debug, PartialEq, Eq, Hash)]
pub enum Kind {
    Num,
    Vec3,
}

#[derive(Clone, Copy, Debug, PartialEq, Eq, Hash)]
pub enum Combine {
    Sum,
    Max,
    Min,
}
