/// Whether a kernel can fault on given particles.
#[derive(Clone, Copy, Debug, PartialEq, Eq)]
pub enum Verdict {
    /// No pair of them can fault.
    Safe,
    /// The statement of this number, counted from 1, is the first that may fault.
    Unsure(u32),
}
