use pf_geom::Axis;

/// Why a particle wasn't moved, with the first axis on which it fails.
#[derive(Clone, Copy, Debug, PartialEq, Eq)]
pub enum MoveFault {
    /// The velocity after the half kick passes 2^47.
    Overflow(Axis),
    /// The drift leaves the cube or, in a periodic box, the cubes next to it.
    Escaped(Axis),
}
