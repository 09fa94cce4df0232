ghost use Rattle.std.specs.Prelude.{◌≡◌, ◌+◌, ◌≤◌, [], ◌∷◌};
ghost use Rattle.pf_model.specs.Sums.{moment_of, together};

use pf_model::{Body, MOST_PARTICLES, Moment};

/// The moment of one particle.
pub fn of_one(b: &Body) -> Moment
    ensures { result ≡ moment_of (b.now ∷ []) }
{
    Moment::of_one(b)
}

/// The moment of some particles and others, from those of both.
pub fn merge(m: Moment, n: Moment) -> Moment
    requires { m.count + n.count ≤ MOST_PARTICLES }
    ensures { result ≡ together m n }
{
    m.merge(n)
}
