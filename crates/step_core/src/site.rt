use pf_geom::Box3;

// What the core keeps of a group: its rank, and the least box round its members.
#[derive(Clone, Copy)]
pub(crate) struct Site {
    pub(crate) rank: u32,
    pub(crate) around: Box3,
}
