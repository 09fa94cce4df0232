use crate::span::Span;
use pf_geom::{Box3, Cell};

/// Bodies that share an interaction list: those of a cell, where they stand among the tree's, and the
/// least box round them.
#[derive(Clone, Copy, Debug, PartialEq, Eq)]
pub struct Group {
    pub cell: Cell,
    pub span: Span,
    pub around: Box3,
}
