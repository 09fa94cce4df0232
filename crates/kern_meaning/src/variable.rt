ghost use Rattle.std.specs.Prelude.{◌≡◌};
ghost use Rattle.kern_types.specs.Names.{declaration as declaration_of};
ghost use Rattle.kern_meaning.specs.Variables as rules;

use crate::Value;
use kern_token::Name;
use kern_tree::{Decl, DeclKind, Kind};
use kern_types::declaration;
use pf_model::{Body, Field, Item};

/// What a declaration is resolved to.
#[derive(Clone, Copy, Debug, PartialEq, Eq, Hash)]
pub(crate) enum Variable {
    /// A field of the particle, as a value of this kind and scale.
    Particle(Field, Kind, u32),
    /// A field of the item.
    Item(Field, Kind, u32),
    /// A constant.
    Constant(i64, u32),
    /// A FORCE variable has no value, nor has what names a field that isn't there.
    Nothing,
}

/// What a name is resolved to, by its declaration.
pub(crate) fn variable_of(decls: &[Decl], name: &Name) -> Variable
    ensures { result ≡ rules.variable_of (declaration_of decls.now name.now) }
{
    match declaration(decls, name.as_bytes()) {
        Some(decl) => resolved(&decl.what),
        None => Variable::Nothing,
    }
}

fn resolved(what: &DeclKind) -> Variable
    ensures { result ≡ rules.resolved what.now }
{
    match what {
        DeclKind::Epi(kind, scale, name) => match field_named(name) {
            Some(field) if particle_has(field) && fits(*kind, *scale, field) => {
                Variable::Particle(field, *kind, *scale)
            }
            _ => Variable::Nothing,
        },
        DeclKind::Epj(kind, scale, name) => match field_named(name) {
            Some(field) if item_has(field) && fits(*kind, *scale, field) => {
                Variable::Item(field, *kind, *scale)
            }
            _ => Variable::Nothing,
        },
        DeclKind::Param(scale, mantissa) => Variable::Constant(*mantissa, *scale),
        DeclKind::Force(_, _, _) => Variable::Nothing,
    }
}

/// The value of a variable for a particle and an item.
pub(crate) fn variable_value(variable: Variable, i: &Body, j: &Item) -> Option<Value>
    ensures { result ≡ rules.value_of_variable i.now j.now variable }
{
    match variable {
        Variable::Particle(field, kind, scale) => Some(of_kind(kind, scale, field.of_body(i))),
        Variable::Item(field, kind, scale) => Some(of_kind(kind, scale, field.of_item(j))),
        Variable::Constant(mantissa, scale) => Some(Value::Num(mantissa, scale)),
        Variable::Nothing => None,
    }
}

/// The value of this kind and scale with these mantissas.
pub(crate) fn of_kind(kind: Kind, scale: u32, components: [i64; 3]) -> Value
    ensures { result ≡ rules.value_of_kind kind scale components }
{
    match kind {
        Kind::Num => Value::Num(components[0], scale),
        Kind::Vec3 => Value::Vec3(components, scale),
    }
}

fn field_named(name: &Name) -> Option<Field>
    ensures { result ≡ rules.field_named name.now }
{
    match name.as_bytes() {
        b"pos" => Some(Field::Pos),
        b"vel" => Some(Field::Vel),
        b"mass" => Some(Field::Mass),
        b"c0" => Some(Field::C0),
        b"c1" => Some(Field::C1),
        b"c2" => Some(Field::C2),
        b"c3" => Some(Field::C3),
        b"c4" => Some(Field::C4),
        b"c5" => Some(Field::C5),
        b"c6" => Some(Field::C6),
        b"c7" => Some(Field::C7),
        b"count" => Some(Field::Count),
        _ => None,
    }
}

fn particle_has(field: Field) -> bool
    ensures { result ≡ rules.particle_has field }
{
    !matches!(field, Field::Count)
}

fn item_has(field: Field) -> bool
    ensures { result ≡ rules.source_has field }
{
    !matches!(field, Field::Vel)
}

// Whether a variable of this kind and scale can have the field.
fn fits(kind: Kind, scale: u32, field: Field) -> bool
    ensures { result ≡ rules.fits kind scale field }
{
    let of_kind = match kind {
        Kind::Num => !field.is_vector(),
        Kind::Vec3 => field.is_vector(),
    };
    of_kind && fits_scale(scale, field)
}

fn fits_scale(scale: u32, field: Field) -> bool
    ensures { result ≡ rules.fits_scale (rules.scale_of field) scale }
{
    match field {
        Field::Pos | Field::Mass | Field::Count => scale == 0,
        Field::Vel => scale == 16,
        _ => true,
    }
}
