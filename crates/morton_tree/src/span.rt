ghost use Rattle.std.specs.Prelude.{◌≡◌, ◌-◌, ◌≤◌};

use pf_model::MOST_PARTICLES;

/// Places in the list of a tree's bodies: `len` of them, from `first` on, counted from 0.
#[derive(Clone, Copy, Debug, PartialEq, Eq)]
pub struct Span {
    pub first: u32,
    pub len: u32,
}

impl Span {
    // The places from `first` on and before `end`.
    pub(crate) fn between(first: usize, end: usize) -> Span
        requires ordered { first ≤ end }
        requires few { end ≤ MOST_PARTICLES }
        ensures { result ≡ record { first = first; len = end - first } }
    {
        Span {
            first: first as u32,
            len: (end - first) as u32,
        }
    }
}
