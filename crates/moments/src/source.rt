ghost use Rattle.std.specs.Prelude.{◌≡◌, ◌/◌, ◌^◌, ◌≤◌, ◌<◌};
ghost use Rattle.pf_model.specs.Sums.{source_of};

use model_laws::sources_keep_their_limits;
use pf_geom::Point;
use pf_model::{Item, Moment};

/// The centre of mass: along each axis the floor of the weighted sum over the mass. There is at least
/// one particle.
pub fn centre(m: &Moment) -> Point
    requires { 1 ≤ m.now.count }
    ensures { result ≡ (source_of m.now).at }
{
    sources_keep_their_limits();
    let [x, y, z] = m.weighted;
    Point {
        x: mean(x, m.mass),
        y: mean(y, m.mass),
        z: mean(z, m.mass),
    }
}

/// What a kernel sees of the particles. There is at least one.
pub fn item(m: &Moment) -> Item
    requires { 1 ≤ m.now.count }
    ensures { result ≡ source_of m.now }
{
    Item {
        at: centre(m),
        mass: m.mass,
        attr: m.attr,
        count: m.count,
    }
}

// The mean coordinate, rounded down.
fn mean(weighted: u128, mass: u64) -> u32
    requires some { 1 ≤ mass }
    requires inside { weighted / mass < 2 ^ 30 }
    ensures { result ≡ weighted / mass }
{
    (weighted / u128::from(mass)) as u32
}
