ghost use Rattle.std.specs.Prelude.{◌≡◌, ◌/◌, ◌^◌, ◌<◌, ◌≤◌};
ghost use Rattle.pf_geom.specs.Key.{spread_bits, morton_key, every_third_bit, HasBitsOf};

use crate::point::{COORDINATE_BITS, Point};

/// The Morton key of a point, below 2^90 (Morton 1966): bit t of x stands at place 3t + 2, of y at
/// 3t + 1 and of z at 3t.
pub fn key_of(p: Point) -> u128
    ensures value { result ≡ morton_key p }
    ensures bits { HasBitsOf p result }
{
    4 * spread(p.x) + 2 * spread(p.y) + spread(p.z)
}

// The number with bit t of the coordinate at place 3t.
fn spread(coordinate: u32) -> u128
    ensures value { result ≡ spread_bits 30 coordinate }
    ensures fits { result < 2 ^ 88 }
{
    let mut spread = 0;
    for bit in (0..COORDINATE_BITS).rev() {
        spread = 8 * spread + u128::from(coordinate >> bit & 1);
    }
    spread
}

// The coordinates along x, y and z whose lowest bits, so many of each, stand in turn in a key. They are read
// together, from the highest bits down.
pub(crate) fn coordinates(key: u128, count: u32) -> (u32, u32, u32)
    requires { count ≤ 30 }
    ensures x { result.0 ≡ every_third_bit count (key / 4) }
    ensures y { result.1 ≡ every_third_bit count (key / 2) }
    ensures z { result.2 ≡ every_third_bit count key }
{
    let (mut x, mut y, mut z) = (0, 0, 0);
    for place in (0..count).rev() {
        let digit = ((key >> (3 * place)) % 8) as u32;
        x = 2 * x + digit / 4;
        y = 2 * y + digit / 2 % 2;
        z = 2 * z + digit % 2;
    }
    (x, y, z)
}
