ghost use Rattle.std.specs.Prelude.{◌≡◌, ◌+◌, ◌^◌, ◌≤◌, unsigned_abs, ℕ};
ghost use Rattle.lane_machine.specs.Total as rules;

use kern_tree::Combine;
use pf_geom::Axis;
use std::marker::Model;

/// What has been added up of a FORCE variable along x, y and z, exact.
#[derive(Clone, Copy, Debug)]
pub(crate) struct Total {
    pub(crate) combine: Combine,
    pub(crate) x: i128,
    pub(crate) y: i128,
    pub(crate) z: i128,
}

impl Model for Total {
    ghost use Rattle.lane_machine.specs.Total.{Summed};

    ghost Value = { Summed };

    ghost view = { λ t. record { combine = t.combine; x = t.x; y = t.y; z = t.z } };

    ghost inverse = { λ t. record { combine = t.combine; x = t.x; y = t.y; z = t.z } };
}

impl Total {
    /// No contribution yet.
    pub(crate) fn nothing(combine: Combine) -> Total
        ensures { result ≡ rules.nothing combine }
    {
        let none = of_none(combine);
        Total {
            combine,
            x: none,
            y: none,
            z: none,
        }
    }

    /// What the contributions come to along an axis.
    pub(crate) fn along(&self, axis: Axis) -> i128
        ensures { result ≡ rules.along axis self.now }
    {
        match axis {
            Axis::X => self.x,
            Axis::Y => self.y,
            Axis::Z => self.z,
        }
    }

    /// With this along an axis.
    pub(crate) fn with(self, axis: Axis, number: i128) -> Total
        ensures { result ≡ rules.with_along axis self number }
    {
        match axis {
            Axis::X => Total { x: number, ..self },
            Axis::Y => Total { y: number, ..self },
            Axis::Z => Total { z: number, ..self },
        }
    }

    /// With one more contribution along an axis.
    pub(crate) fn and(self, axis: Axis, number: i64) -> Total
        requires { rules.AreFew (2 ^ 60) self }
        ensures value { result ≡ rules.with_along axis self (rules.joined self.combine (rules.along axis self) number) }
        ensures few { (n : ℕ) → rules.AreFew n self → rules.AreFew (n + 1) result }
    {
        match axis {
            Axis::X => self.with(Axis::X, joined(self.combine, self.x, number)),
            Axis::Y => self.with(Axis::Y, joined(self.combine, self.y, number)),
            Axis::Z => self.with(Axis::Z, joined(self.combine, self.z, number)),
        }
    }
}

fn of_none(combine: Combine) -> i128
    ensures { result ≡ rules.of_none combine }
{
    match combine {
        Combine::Sum => 0,
        Combine::Max => i128::from(i64::MIN),
        Combine::Min => i128::from(i64::MAX),
    }
}

/// A total with one more number.
pub(crate) fn joined(combine: Combine, total: i128, number: i64) -> i128
    requires { unsigned_abs total ≤ 2 ^ 125 }
    ensures value { result ≡ rules.joined combine total number }
    ensures few { (count : ℕ) → rules.IsOfFew count total → rules.IsOfFew (count + 1) result }
{
    let number = i128::from(number);
    match combine {
        Combine::Sum => total + number,
        Combine::Max => total.max(number),
        Combine::Min => total.min(number),
    }
}
