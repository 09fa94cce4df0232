ghost use Rattle.std.specs.Prelude.{◌≡◌, ◌+◌, ◌^◌, ◌<◌, ◌≤◌, unsigned_abs, ℕ};
ghost use Rattle.force_phase.specs.Tally as rules;

use kern_tree::Combine;
use std::marker::Model;

/// What pairs have contributed so far to a FORCE variable, along x, y and z, exact.
#[derive(Clone, Copy, Debug)]
pub(crate) struct Tally {
    pub(crate) count: u64,
    pub(crate) x: i128,
    pub(crate) y: i128,
    pub(crate) z: i128,
}

impl Model for Tally {
    ghost use Rattle.force_phase.specs.Tally.{Tallied, IsTally};

    ghost Value = { Tallied };

    ghost view = { λ t. record { count = t.count; x = t.x; y = t.y; z = t.z } };

    ghost invariant = { λ t. IsTally t.count t.x t.y t.z };

    ghost inverse = { λ t. record { count = t.count; x = t.x; y = t.y; z = t.z } };
}

impl Tally {
    /// No contribution yet.
    pub(crate) fn nothing(combine: Combine) -> Tally
        ensures { result ≡ rules.nothing combine }
    {
        let none = of_none(combine);
        Tally {
            count: 0,
            x: none,
            y: none,
            z: none,
        }
    }

    /// With one more contribution.
    pub(crate) fn with(self, combine: Combine, numbers: [i64; 3]) -> Tally
        requires { self.count < 2 ^ 60 }
        ensures { result ≡ rules.with_numbers combine self numbers }
    {
        Tally {
            count: self.count + 1,
            x: joined(combine, self.x, numbers[0]),
            y: joined(combine, self.y, numbers[1]),
            z: joined(combine, self.z, numbers[2]),
        }
    }
}

fn of_none(combine: Combine) -> i128
    ensures value { result ≡ rules.of_none combine }
    ensures few { rules.IsOfFew 0 result }
{
    match combine {
        Combine::Sum => 0,
        Combine::Max => i128::from(i64::MIN),
        Combine::Min => i128::from(i64::MAX),
    }
}

fn joined(combine: Combine, total: i128, number: i64) -> i128
    requires { unsigned_abs total ≤ 2 ^ 125 }
    ensures value { result ≡ rules.joined combine total number }
    ensures few { (count : ℕ) → rules.IsOfFew count total → rules.IsOfFew (count + 1) result }
{
    let number = i128::from(number);
    match combine {
        Combine::Sum => total + number,
        Combine::Max => total.max(number),
        Combine::Min => total.min(number),
    }
}
