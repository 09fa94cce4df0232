ghost use Rattle.std.specs.Prelude.{◌≡◌};
ghost use Rattle.kern_types.specs.Declarations.{fits_scale as fits_own};
ghost use Rattle.kern_meaning.specs.Names as rules;

use kern_token::Name;
use kern_tree::Kind;
use pf_model::Field;

/// The field of this name.
pub(crate) fn field_named(name: &Name) -> Option<Field>
    ensures { result ≡ rules.field_named name.now }
{
    match name.as_bytes() {
        b"pos" => Some(Field::Pos),
        b"vel" => Some(Field::Vel),
        b"mass" => Some(Field::Mass),
        b"c0" => Some(Field::C0),
        b"c1" => Some(Field::C1),
        b"c2" => Some(Field::C2),
        b"c3" => Some(Field::C3),
        b"c4" => Some(Field::C4),
        b"c5" => Some(Field::C5),
        b"c6" => Some(Field::C6),
        b"c7" => Some(Field::C7),
        b"count" => Some(Field::Count),
        _ => None,
    }
}

pub(crate) fn particle_has(field: Field) -> bool
    ensures { result ≡ rules.particle_has field }
{
    !matches!(field, Field::Count)
}

pub(crate) fn source_has(field: Field) -> bool
    ensures { result ≡ rules.source_has field }
{
    !matches!(field, Field::Vel)
}

/// Whether a variable of this kind and scale can have the field.
pub(crate) fn fits(kind: Kind, scale: u32, field: Field) -> bool
    ensures { result ≡ rules.fits kind scale field }
{
    let of_kind = match kind {
        Kind::Num => !field.is_vector(),
        Kind::Vec3 => field.is_vector(),
    };
    of_kind && fits_scale(scale, field)
}

fn fits_scale(scale: u32, field: Field) -> bool
    ensures { result ≡ fits_own (rules.scale_of field) scale }
{
    match field {
        Field::Pos | Field::Mass | Field::Count => scale == 0,
        Field::Vel => scale == 16,
        _ => true,
    }
}
