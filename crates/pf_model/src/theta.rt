ghost use Rattle.std.specs.Prelude.{◌≡◌, ◌*◌, ◌^◌, ◌<◌, ◌≤◌, ◌↔◌, IsTrue};
ghost use Rattle.pf_geom.specs.Gap.{square};
ghost use Rattle.pf_model.specs.Criterion.{Passes};

use pf_geom::{Box3, Cell, Edge, gap2_across, side};
use std::marker::Model;

/// The opening angle, the fraction a/b, with what lies past the edge of the cube (Barnes and Hut
/// 1986).
#[derive(Clone, Copy, Debug, PartialEq, Eq)]
pub struct Theta {
    /// From 0 to 1024. At 0 no cell passes.
    pub a: u32,
    /// From 1 to 1024.
    pub b: u32,
    pub edge: Edge,
}

impl Model for Theta {
    ghost use Rattle.pf_model.specs.Criterion.{Criterion, IsAngle};

    ghost Value = { Criterion };

    ghost view = { λ t. record { a = t.a; b = t.b; edge = t.edge } };

    ghost invariant = { λ t. IsAngle t.a t.b };

    ghost inverse = { λ t. record { a = t.a; b = t.b; edge = t.edge } };
}

impl Theta {
    /// The opening test: whether a cell is far enough from a box to stand for the particles in it, side /
    /// gap <= a / b, in whole numbers.
    pub fn passes(self, b: Box3, c: Cell) -> bool
        ensures { IsTrue result ↔ Passes b c self }
    {
        let side = u128::from(side(c));
        let gap2 = gap2_across(self.edge, b, c);
        times_square(side * side, self.b) <= times_square(gap2, self.a)
    }
}

// A square times the square of one part of an opening angle.
fn times_square(squared: u128, part: u32) -> u128
    requires squared_fits { squared < 2 ^ 64 }
    requires part_fits { part ≤ 1024 }
    ensures { result ≡ squared * square part }
{
    squared * (u128::from(part) * u128::from(part))
}
