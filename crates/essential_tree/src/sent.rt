use morton_tree::Span;
use pf_geom::Cell;

/// What a sender keeps of an essential tree that it sent to rank `dst`: the cells of the first items, in order,
/// and for each item the span of its members in the sender's tree. The other items are particles.
#[derive(Drop)]
pub struct Sent {
    pub dst: u32,
    pub cells: Vec<Cell>,
    pub spans: Vec<Span>,
}
