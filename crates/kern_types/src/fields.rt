ghost use Rattle.std.specs.Prelude.{◌≡◌};
ghost use Rattle.kern_types.specs.Fields as table;

use kern_token::Name;
use kern_tree::Kind;

/// A field that a declaration can name.
#[derive(Clone, Copy)]
pub struct Field {
    /// Whether the particle that takes has it.
    pub epi: bool,
    /// Whether the item that gives has it.
    pub epj: bool,
    pub kind: Kind,
    /// The number of fraction bits, where it isn't as declared.
    pub scale: Option<u32>,
}

/// The field that a particle has by this name.
pub(crate) fn particle_field(name: &Name) -> Option<Field>
    ensures { result ≡ table.particle_field name.now }
{
    field_called(name).filter(|field| field.epi)
}

/// The field that an item has by this name.
pub(crate) fn item_field(name: &Name) -> Option<Field>
    ensures { result ≡ table.item_field name.now }
{
    field_called(name).filter(|field| field.epj)
}

fn field_called(name: &Name) -> Option<Field>
    ensures { result ≡ table.field_called name.now }
{
    let (epi, epj, kind, scale) = match name.as_bytes() {
        b"pos" => (true, true, Kind::Vec3, Some(0)),
        b"vel" => (true, false, Kind::Vec3, Some(16)),
        b"mass" => (true, true, Kind::Num, Some(0)),
        b"c0" | b"c1" | b"c2" | b"c3" | b"c4" | b"c5" | b"c6" | b"c7" => {
            (true, true, Kind::Num, None)
        }
        b"count" => (false, true, Kind::Num, Some(0)),
        _ => return None,
    };
    Some(Field {
        epi,
        epj,
        kind,
        scale,
    })
}
