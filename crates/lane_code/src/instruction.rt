use pf_geom::Axis;
use pf_model::Field;

/// An instruction. It writes a number register in the lanes of its mask alone.
#[derive(Clone, Copy, Debug, PartialEq, Eq)]
pub struct Instr {
    /// The mask register of the lanes that it works in. `And`, `AndNot` and `Or` have no use for it.
    pub under: u32,
    /// The register that it writes: a number, or of `Compare`, `And`, `AndNot` and `Or` a mask. `Give` writes none.
    pub out: u32,
    pub act: Lane,
}

/// What an instruction does. Registers and slots are given by their number, from 0. Where the exact value isn't an
/// `i64`, a divisor is 0 or the argument of a root is negative, the lane faults.
#[derive(Clone, Copy, Debug, PartialEq, Eq)]
pub enum Lane {
    Const(i64),
    /// A component of a field of the particle. A number stands along x, and is 0 along y and z.
    LoadI(Field, Axis),
    /// A component of a field of the item.
    LoadJ(Field, Axis),
    Copy(u32),
    Neg(u32),
    Abs(u32),
    /// The square root without its fraction.
    Root(u32),
    Add(u32, u32),
    Sub(u32, u32),
    Mul(u32, u32),
    /// The quotient without its fraction.
    Div(u32, u32),
    /// The inner product of the first three and the last three, from the exact sum.
    Dot(u32, u32, u32, u32, u32, u32),
    /// The product of the first two over the third, without its fraction, from the exact product.
    MulDiv(u32, u32, u32),
    /// Times this power of two.
    Up(u32, u32),
    /// The quotient by this power of two, without its fraction.
    Down(u32, u32),
    /// The lesser of two.
    Least(u32, u32),
    /// The greater of two.
    Most(u32, u32),
    /// A mask: the lanes of `under` in which the relation holds.
    Compare(Relation, u32, u32),
    And(u32, u32),
    /// The lanes of the first mask that aren't in the second.
    AndNot(u32, u32),
    Or(u32, u32),
    /// The contribution along an axis to this slot.
    Give(u32, Axis, u32),
}

/// How two numbers are compared.
#[derive(Clone, Copy, Debug, PartialEq, Eq)]
pub enum Relation {
    Lt,
    Le,
    Gt,
    Ge,
    Eq,
    Ne,
}
