use crate::body::Body;
use crate::moment::Moment;
use pf_geom::Cell;

/// An entry of an interaction list: a cell with the moment of its members, or a particle.
#[derive(Clone, Copy, Debug, PartialEq, Eq)]
pub enum Entry {
    Cell(Cell, Moment),
    One(Body),
}
