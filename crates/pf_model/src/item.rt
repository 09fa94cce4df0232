use pf_geom::Point;
use std::marker::Model;

/// Particles as a kernel sees them: one source of force at their centre of mass. There is at least one.
#[derive(Clone, Copy, Debug, PartialEq, Eq)]
pub struct Item {
    pub at: Point,
    /// From `count` to `count` · (2^31 - 1).
    pub mass: u64,
    /// The sums of the attributes c0 to c7, each at most `count` · 2^40 either way.
    pub attr: [i64; 8],
    /// From 1 to 65,536.
    pub count: u32,
}

impl Model for Item {
    ghost use Rattle.pf_model.specs.Totals.{Source, IsSourceOf};

    ghost Value = { Source };

    ghost view = { λ i. record { at = i.at; mass = i.mass; attr = i.attr; count = i.count } };

    ghost invariant = { λ i. IsSourceOf i.count i.mass i.attr };

    ghost inverse = { λ i. record { at = i.at; mass = i.mass; attr = i.attr; count = i.count } };
}
