/// Places in a list of positions in key order, which lead to one cell: all in that cell, where `level` has its
/// level, or one place of which no cell passes.
#[derive(Clone, Copy, Debug, PartialEq, Eq)]
pub struct CellRun {
    pub first: u32,
    pub len: u32,
    pub level: Option<u32>,
}
