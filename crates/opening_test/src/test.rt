ghost use Rattle.std.specs.Prelude.{◌≡◌, ◌+◌, ◌↔◌, IsTrue};
ghost use Rattle.pf_model.specs.Criterion.{Passes};

use pf_geom::{Box3, Cell};
use pf_model::{Steps, Theta};
use std::sync::ledger::Ledger;

/// Whether a cell passes the opening test of a box, side / gap <= a / b, in whole numbers (Barnes and
/// Hut 1986). One call is one step.
pub fn passes<L: Ledger>(b: Box3, c: Cell, t: Theta, steps: &mut Steps<L>) -> bool
    ensures answer { IsTrue result ↔ Passes b c t }
    ensures cost { steps.new ≡ steps.old + 1 }
{
    steps.tick();
    t.passes(b, c)
}
