ghost use Rattle.std.specs.Prelude.{◌≡◌, ◌+◌, ◌^◌, ◌≤◌, [], ◌∷◌, unsigned_abs, All};
ghost use Rattle.pf_model.specs.Totals.{Totals};
ghost use Rattle.pf_model.specs.Sums.{moment_of, together, pairwise_sums, pairwise_differences, IsRest};

use crate::body::Body;
use crate::limits::MOST_PARTICLES;
use std::marker::Model;

/// The sums over some particles, at most 65,536, within the limits that follow from theirs.
#[derive(Clone, Copy, Debug, PartialEq, Eq)]
pub struct Moment {
    pub count: u32,
    /// From `count` to `count` · (2^31 - 1).
    pub mass: u64,
    /// The sums of mass times coordinate along x, y and z, each at most `mass` · (2^30 - 1).
    pub weighted: [u128; 3],
    /// The sums of the attributes c0 to c7, each at most `count` · 2^40 either way.
    pub attr: [i64; 8],
}

impl Model for Moment {
    ghost use Rattle.pf_model.specs.Totals.{Totals, IsMomentOf};

    ghost Value = { Totals };

    ghost view = { λ m. record { count = m.count; mass = m.mass; weighted = m.weighted; attr = m.attr } };

    ghost invariant = { λ m. IsMomentOf m.count m.mass m.weighted m.attr };

    ghost inverse = { λ m. record { count = m.count; mass = m.mass; weighted = m.weighted; attr = m.attr } };
}

impl Moment {
    /// The moment of no particles.
    pub fn none() -> Moment
        ensures { result ≡ moment_of [] }
    {
        Moment {
            count: 0,
            mass: 0,
            weighted: [0; 3],
            attr: [0; 8],
        }
    }

    /// The moment of one particle.
    pub fn of_one(body: &Body) -> Moment
        ensures { result ≡ moment_of (body.now ∷ []) }
    {
        let mass = u128::from(body.mass);
        Moment {
            count: 1,
            mass: u64::from(body.mass),
            weighted: [
                mass * u128::from(body.at.x),
                mass * u128::from(body.at.y),
                mass * u128::from(body.at.z),
            ],
            attr: body.attr,
        }
    }

    /// The moment of some particles and others, from those of both.
    pub fn merge(self, other: Moment) -> Moment
        requires { self.count + other.count ≤ MOST_PARTICLES }
        ensures { result ≡ together self other }
    {
        let (w, v) = (self.weighted, other.weighted);
        Moment {
            count: self.count + other.count,
            mass: self.mass + other.mass,
            weighted: [w[0] + v[0], w[1] + v[1], w[2] + v[2]],
            attr: attribute_sums(self.attr, other.attr),
        }
    }

    /// The moment of the others, from that of all together and that of some.
    pub fn without(self, some: Moment) -> Moment
        requires { (rest : Totals) × IsRest self some rest }
        ensures { (rest : Totals) → IsRest self some rest → result ≡ rest }
    {
        let (w, v) = (self.weighted, some.weighted);
        Moment {
            count: self.count - some.count,
            mass: self.mass - some.mass,
            weighted: [w[0] - v[0], w[1] - v[1], w[2] - v[2]],
            attr: attribute_differences(self.attr, some.attr),
        }
    }
}

// The sums of the attributes, each with its own.
fn attribute_sums(a: [i64; 8], b: [i64; 8]) -> [i64; 8]
    requires a_fits { All (λ n. unsigned_abs n ≤ 2 ^ 56) a }
    requires b_fits { All (λ n. unsigned_abs n ≤ 2 ^ 56) b }
    ensures { result ≡ pairwise_sums a b }
{
    let mut sums = a;
    for k in 0..8 {
        sums[k] = a[k] + b[k];
    }
    sums
}

// The differences of the attributes, each from its own.
fn attribute_differences(a: [i64; 8], b: [i64; 8]) -> [i64; 8]
    requires a_fits { All (λ n. unsigned_abs n ≤ 2 ^ 56) a }
    requires b_fits { All (λ n. unsigned_abs n ≤ 2 ^ 56) b }
    ensures { result ≡ pairwise_differences a b }
{
    let mut differences = a;
    for k in 0..8 {
        differences[k] = a[k] - b[k];
    }
    differences
}
