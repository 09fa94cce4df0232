/// What lies past the edge of the cube: nothing, or the cube again.
#[derive(Clone, Copy, Debug, PartialEq, Eq, Hash)]
pub enum Edge {
    Open,
    Periodic,
}
