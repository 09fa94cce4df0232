use kern_tree::Kind;

/// The type of an expression.
#[derive(Clone, Copy, Debug, PartialEq, Eq, Hash)]
pub enum ExprType {
    /// A num or a vec, and its scale, the number of fraction bits.
    Scaled(Kind, u32),
    Condition,
}
