/// A value of the kernel language. The `u32` is the scale: a mantissa m stands for m / 2^scale.
#[derive(Clone, Copy, Debug, PartialEq, Eq, Hash)]
pub enum Value {
    Num(i64, u32),
    /// The mantissas along x, y and z.
    Vec3([i64; 3], u32),
    Condition(bool),
}
