ghost use Rattle.std.specs.Prelude.{◌≡◌, ◌-◌, ◌^◌, ◌≤◌, min};
ghost use Rattle.pf_geom.specs.Gap.{square};
ghost use Rattle.opening_test.specs.LeastGaps.{IsLeastGap, IsLeastNumber, AreLeastGaps};

use pf_geom::DEEPEST;
use pf_model::Theta;

/// How many levels there are.
pub(crate) const LEVELS: usize = DEEPEST as usize + 1;

// A square that no gap has.
const NO_GAP: u64 = u64::MAX;

/// The least squared gaps at which cells pass, for the levels from 0 on. One division makes them all, since the
/// square of the side is a quarter of that one level higher.
pub(crate) fn least_gaps(t: Theta) -> [u64; LEVELS]
    ensures { AreLeastGaps t result }
{
    let mut gaps = [NO_GAP; LEVELS];
    if t.a > 0 {
        let mut least = least_for_cube(t);
        for level in 0..LEVELS {
            gaps[level] = in_64_bits(least);
            least = least.div_ceil(4);
        }
    }
    gaps
}

// The least number that serves as a squared gap at which the whole cube passes.
fn least_for_cube(t: Theta) -> u128
    requires { 1 ≤ t.a }
    ensures value { IsLeastNumber t 0 result }
    ensures fits { result ≤ 2 ^ 80 }
{
    let side = 1 << DEEPEST;
    (square(side) * square(t.b)).div_ceil(square(t.a))
}

// The number, or one that no gap has where it doesn't fit.
fn in_64_bits(least: u128) -> u64
    ensures { result ≡ min least (2 ^ 64 - 1) }
{
    least.min(u128::from(NO_GAP)) as u64
}

fn square(n: u32) -> u128
    requires { n ≤ 2 ^ 30 }
    ensures value { result ≡ square n }
    ensures fits { result ≤ 2 ^ 60 }
{
    u128::from(n) * u128::from(n)
}
