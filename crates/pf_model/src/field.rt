ghost use Rattle.std.specs.Prelude.{◌≡◌, pos, [], ◌∷◌};
ghost use Rattle.pf_model.specs.Fields.{is_vector, field_of_particle, field_of_source, along_each_axis};

use crate::body::Body;
use crate::item::Item;
use pf_geom::Point;

/// What a kernel can read of the particle that receives a force (EPI), and of what exerts it (EPJ). A
/// particle has no `Count`, an item no `Vel`.
#[derive(Clone, Copy, Debug, PartialEq, Eq, Hash)]
pub enum Field {
    Pos,
    Vel,
    Mass,
    C0,
    C1,
    C2,
    C3,
    C4,
    C5,
    C6,
    C7,
    Count,
}

impl Field {
    /// Whether the field is a vector. Any other is a number.
    pub fn is_vector(self) -> bool
        ensures { result ≡ is_vector self }
    {
        match self {
            Field::Pos | Field::Vel => true,
            _ => false,
        }
    }

    /// The field of a particle along x, y and z. A number stands along x, and what isn't there is 0.
    pub fn of_body(self, body: &Body) -> [i64; 3]
        ensures { result ≡ along_each_axis (field_of_particle self body.now) }
    {
        match self {
            Field::Pos => coordinates(body.at),
            Field::Vel => {
                let [x, y, z] = body.vel;
                [x, y, z]
            }
            Field::Mass => [i64::from(body.mass), 0, 0],
            Field::C0 => [body.attr[0], 0, 0],
            Field::C1 => [body.attr[1], 0, 0],
            Field::C2 => [body.attr[2], 0, 0],
            Field::C3 => [body.attr[3], 0, 0],
            Field::C4 => [body.attr[4], 0, 0],
            Field::C5 => [body.attr[5], 0, 0],
            Field::C6 => [body.attr[6], 0, 0],
            Field::C7 => [body.attr[7], 0, 0],
            Field::Count => [0; 3],
        }
    }

    /// The field of an item along x, y and z. A number stands along x, and what isn't there is 0.
    pub fn of_item(self, item: &Item) -> [i64; 3]
        ensures { result ≡ along_each_axis (field_of_source self item.now) }
    {
        match self {
            Field::Pos => coordinates(item.at),
            Field::Vel => [0; 3],
            Field::Mass => [item.mass as i64, 0, 0],
            Field::C0 => [item.attr[0], 0, 0],
            Field::C1 => [item.attr[1], 0, 0],
            Field::C2 => [item.attr[2], 0, 0],
            Field::C3 => [item.attr[3], 0, 0],
            Field::C4 => [item.attr[4], 0, 0],
            Field::C5 => [item.attr[5], 0, 0],
            Field::C6 => [item.attr[6], 0, 0],
            Field::C7 => [item.attr[7], 0, 0],
            Field::Count => [i64::from(item.count), 0, 0],
        }
    }
}

// The coordinates along x, y and z.
fn coordinates(p: Point) -> [i64; 3]
    ensures { result ≡ pos p.x ∷ pos p.y ∷ pos p.z ∷ [] }
{
    [i64::from(p.x), i64::from(p.y), i64::from(p.z)]
}
