ghost use Rattle.std.specs.Prelude.{◌≡◌, ◌+◌, ◌≤◌, ◌↔◌, IsTrue};
ghost use Rattle.pf_model.specs.Criterion.{Passes};

use crate::gap_table::{LEVELS, least_gaps};
use pf_geom::{Box3, Cell, squared_gap};
use pf_model::{Steps, Theta};
use std::marker::Model;
use std::sync::ledger::Ledger;

/// The opening test of one angle as a table: for each level the least squared gap at which its cells pass. It is
/// made once for many tests, which then multiply and divide nothing.
#[derive(Drop)]
pub struct LeastGaps {
    theta: Theta,
    least: [u64; LEVELS],
}

impl Model for LeastGaps {
    ghost use Rattle.pf_model.specs.Criterion.{Criterion};
    ghost use Rattle.opening_test.specs.LeastGaps.{AreLeastGaps};

    ghost Value = { Criterion };

    ghost view = { λ g. g.theta };

    ghost invariant = { λ g. AreLeastGaps g.theta g.least };
}

impl LeastGaps {
    /// The table of an opening angle.
    pub fn of(t: Theta) -> LeastGaps
        ensures { result ≡ t }
    {
        LeastGaps {
            theta: t,
            least: least_gaps(t),
        }
    }

    /// The opening angle.
    pub fn theta(&self) -> Theta
        ensures { result ≡ self.now }
    {
        self.theta
    }

    /// Whether a cell passes the opening test of a box, as `passes` says. One call is one step.
    pub fn passes<L: Ledger>(&self, b: Box3, c: Cell, steps: &mut Steps<L>) -> bool
        ensures answer { IsTrue result ↔ Passes b c self.now }
        ensures cost { steps.new ≡ steps.old + 1 }
    {
        steps.tick();
        self.least[c.level as usize] <= squared_gap(self.theta.edge, b, c)
    }
}
