use morton_tree::Span;

// The members of an entry to be made, and what puts it into its place in lists: a cell's level and its first member,
// since members stand in key order, or, past all levels, a particle's id.
#[derive(Clone, Copy)]
pub(crate) struct Piece {
    pub place: (u32, u32),
    pub span: Span,
}
