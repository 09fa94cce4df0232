ghost use Rattle.std.specs.Prelude.{◌≡◌};
ghost use Rattle.std.specs.Option.{option_copied};
ghost use Rattle.kern_meaning.specs.Names as meanings;
ghost use Rattle.lane_codegen.specs.Names as rules;
ghost use Rattle.lane_codegen.specs.Writing.{Writes};

use crate::acts::{Acts, alike};
use crate::place::{Place, Registers};
use crate::writer::Writer;
use kern_token::Name;
use kern_tree::{Decl, DeclKind, Kind};
use kern_types::{ExprType, declaration};
use lane_code::Lane;
use pf_geom::Axis;
use pf_model::Field;
use pf_num::OutOfMemory;

/// A name that was assigned earlier in the text, with the kind and the scale of its value and its registers.
#[derive(Drop)]
pub(crate) struct Assigned {
    pub(crate) name: Name,
    pub(crate) kind: Kind,
    pub(crate) scale: u32,
    pub(crate) at: Registers,
}

/// The registers of a name that was assigned.
pub(crate) fn entry_of<'t>(table: &'t [Assigned], name: &Name) -> Option<&'t Assigned>
    ensures { option_copied result ≡ rules.entry table.now name.now }
{
    table.iter().find(|entry| entry.name == *name)
}

/// Writes the value of a name where it is declared. One that is assigned stands in its registers.
pub(crate) fn name_code(
    decls: &[Decl],
    table: &[Assigned],
    writer: &mut Writer,
    under: u32,
    name: &Name,
) -> Result<Place, OutOfMemory>
    ensures { Writes result writer.new (rules.name_made decls.now table.now name.now under writer.old) }
{
    match declaration(decls, name.as_bytes()) {
        Some(decl) => declared_code(writer, under, &decl.what),
        None => match entry_of(table, name) {
            Some(entry) => Ok(Place::Scaled(entry.kind, entry.scale, entry.at)),
            None => writer.nothing(under),
        },
    }
}

fn declared_code(writer: &mut Writer, under: u32, what: &DeclKind) -> Result<Place, OutOfMemory>
    ensures { Writes result writer.new (rules.declared_made what.now under writer.old) }
{
    match what {
        DeclKind::Epi(kind, scale, field) => writer.value(
            under,
            ExprType::Scaled(*kind, *scale),
            particle_loads(field_named(field)),
        ),
        DeclKind::Epj(kind, scale, field) => writer.value(
            under,
            ExprType::Scaled(*kind, *scale),
            item_loads(field_named(field)),
        ),
        DeclKind::Param(scale, mantissa) => writer.value(
            under,
            ExprType::Scaled(Kind::Num, *scale),
            alike(Lane::Const(*mantissa)),
        ),
        DeclKind::Force(_, _, _) => writer.nothing(under),
    }
}

fn particle_loads(field: Option<Field>) -> Acts
    ensures { result ≡ rules.particle_loads field }
{
    match field {
        None | Some(Field::Count) => alike(Lane::Const(0)),
        Some(field) => Acts {
            x: Lane::LoadI(field, Axis::X),
            y: Lane::LoadI(field, Axis::Y),
            z: Lane::LoadI(field, Axis::Z),
        },
    }
}

fn item_loads(field: Option<Field>) -> Acts
    ensures { result ≡ rules.item_loads field }
{
    match field {
        None | Some(Field::Vel) => alike(Lane::Const(0)),
        Some(field) => Acts {
            x: Lane::LoadJ(field, Axis::X),
            y: Lane::LoadJ(field, Axis::Y),
            z: Lane::LoadJ(field, Axis::Z),
        },
    }
}

fn field_named(name: &Name) -> Option<Field>
    ensures { result ≡ meanings.field_named name.now }
{
    match name.as_bytes() {
        b"pos" => Some(Field::Pos),
        b"vel" => Some(Field::Vel),
        b"mass" => Some(Field::Mass),
        b"c0" => Some(Field::C0),
        b"c1" => Some(Field::C1),
        b"c2" => Some(Field::C2),
        b"c3" => Some(Field::C3),
        b"c4" => Some(Field::C4),
        b"c5" => Some(Field::C5),
        b"c6" => Some(Field::C6),
        b"c7" => Some(Field::C7),
        b"count" => Some(Field::Count),
        _ => None,
    }
}
