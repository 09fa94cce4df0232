// The kernels of the examples, each its canonical text, for the crates that test by them.
#![tactic(auto)]

/// The sum of the ways to all particles.
pub const PULL: &str = "\
EPI vec S0 xi : pos;
EPJ vec S0 xj : pos;
FORCE vec S16 acc sum;
FORCE vec S0 pull sum;
pull += xj - xi;
";

/// Gravity by whole numbers, which two particles at one place have none of.
pub const GRAVITY: &str = "\
EPI vec S0 xi : pos;
EPJ vec S0 xj : pos;
EPJ num S0 mj : mass;
FORCE vec S16 acc sum;
PARAM S16 g = 1000000;
d = xj - xi;
r2 = d * d;
r = isqrt(r2);
acc += muldiv(g * mj, d, r2) / r;
";

/// Gravity that is softened, so that two particles at one place don't pull.
pub const SOFT_GRAVITY: &str = "\
EPI vec S0 xi : pos;
EPJ vec S0 xj : pos;
EPJ num S0 mj : mass;
FORCE vec S16 acc sum;
PARAM S16 g = 1000000;
PARAM S0 e = 1;
d = xj - xi;
r2 = d * d + e;
r = isqrt(r2);
acc += muldiv(g * mj, d, r2) / r;
";

/// Gravity, and the square of the way to the farthest particle.
pub const FARTHEST: &str = "\
EPI vec S0 xi : pos;
EPJ vec S0 xj : pos;
EPJ num S0 mj : mass;
FORCE vec S16 acc sum;
FORCE num S0 top max;
PARAM S16 g = 1000000;
d = xj - xi;
r2 = d * d;
r = isqrt(r2);
acc += muldiv(g * mj, d, r2) / r;
top += r2;
";

/// Gravity between particles at different places.
pub const GUARDED_GRAVITY: &str = "\
EPI vec S0 xi : pos;
EPJ vec S0 xj : pos;
EPJ num S0 mj : mass;
FORCE vec S16 acc sum;
PARAM S16 g = 1000000;
d = xj - xi;
r2 = d * d;
r = isqrt(r2);
if r2 > 0 {
  acc += muldiv(g * mj, d, r2) / r;
}
";

/// A division by 0 where a particle of mass 5 exerts the force.
pub const OVER_MASS: &str = "\
EPJ num S0 mj : mass;
FORCE vec S16 acc sum;
FORCE num S0 n sum;
n += 1 / (mj - 5);
";

/// A division by 0 where a particle of mass 5 receives the force.
pub const OVER_OWN_MASS: &str = "\
EPI num S0 mi : mass;
FORCE vec S16 acc sum;
FORCE num S0 n sum;
n += 1 / (mi - 5);
";

/// The root of a negative number.
pub const ROOT_OF_MASS: &str = "\
EPJ num S0 mj : mass;
FORCE vec S16 acc sum;
FORCE num S0 n sum;
n += isqrt(0 - mj);
";

/// A product past 2^63 - 1 where the mass is 2 or more.
pub const GREAT_PRODUCT: &str = "\
EPJ num S0 mj : mass;
FORCE vec S16 acc sum;
FORCE num S0 n sum;
n += mj * 9223372036854775807;
";

/// 2^22 times the attributes, felt by a particle of mass 9.
pub const GREAT_SUM: &str = "\
EPI num S0 mi : mass;
EPJ num S0 cj : c0;
FORCE vec S16 acc sum;
FORCE num S22 n sum;
if mi == 9 {
  n += to(22, cj);
}
";
