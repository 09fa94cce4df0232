ghost use Rattle.std.specs.Prelude.{◌≡◌};
ghost use Rattle.lane_codegen.specs.Expressions as rules;
ghost use Rattle.lane_codegen.specs.Writing.{Writes};

use crate::acts::{alike, along, one_acts, same_registers, three_acts, to_acts, two_acts};
use crate::place::Place;
use crate::variable::{Assigned, name_code};
use crate::writer::Writer;
use kern_tree::{Decl, Expr, Form, Kind, Op1, Op2, Op3};
use kern_types::{ExprType, one_type, three_type, to_type, two_type};
use lane_code::Lane;
use pf_geom::Axis;
use pf_num::OutOfMemory;

/// Writes the value of an expression, where the names of the table were assigned earlier in the text.
#[cycle(expressions)]
pub(crate) fn expression_code(
    decls: &[Decl],
    table: &[Assigned],
    writer: &mut Writer,
    under: u32,
    expr: &Expr,
) -> Result<Place, OutOfMemory>
    ensures { Writes result writer.new (rules.code_of decls.now table.now expr.now under writer.old) }
{
    let place = expr.place;
    match &expr.form {
        Form::Number(mantissa, scale) => literal_code(writer, under, *mantissa, *scale),
        Form::Name(name) => name_code(decls, table, writer, under, name),
        Form::Part(a, axis) => {
            let a = expression_code(decls, table, writer, under, a.get())?;
            part_code(writer, under, *axis, a)
        }
        Form::One(op, a) => {
            let a = expression_code(decls, table, writer, under, a.get())?;
            one_code(writer, under, place, *op, a)
        }
        Form::Two(op, a, b) => {
            let a = expression_code(decls, table, writer, under, a.get())?;
            right_code(decls, table, writer, under, place, *op, a, b.get())
        }
        Form::Three(op, a, b, c) => {
            let a = expression_code(decls, table, writer, under, a.get())?;
            let b = expression_code(decls, table, writer, under, b.get())?;
            let c = expression_code(decls, table, writer, under, c.get())?;
            three_code(writer, under, place, *op, a, b, c)
        }
        Form::To(scale, a) => {
            let a = expression_code(decls, table, writer, under, a.get())?;
            to_code(writer, under, place, *scale, a)
        }
    }
}

// The right operand, and the whole. That of `&&` is evaluated in the lanes of the left one alone, that of `||` in those
// that aren't in it.
#[cycle(expressions)]
fn right_code(
    decls: &[Decl],
    table: &[Assigned],
    writer: &mut Writer,
    under: u32,
    place: u32,
    op: Op2,
    left: Place,
    right: &Expr,
) -> Result<Place, OutOfMemory>
    ensures { Writes result writer.new (rules.right_made place op left
        (rules.code_of decls.now table.now right.now) under writer.old) }
{
    match (op, left) {
        (Op2::And, Place::Condition(mask)) => {
            let right = expression_code(decls, table, writer, mask, right)?;
            Ok(with_right(mask, right))
        }
        (Op2::Or, Place::Condition(mask)) => {
            let rest = writer.mask(under, Lane::AndNot(under, mask))?;
            let other = expression_code(decls, table, writer, rest, right)?;
            or_code(writer, under, mask, other)
        }
        (Op2::And | Op2::Or, Place::Scaled(_, _, _)) => writer.nothing(under),
        _ => {
            let right = expression_code(decls, table, writer, under, right)?;
            two_code(writer, under, place, op, left, right)
        }
    }
}

// The mask of `&&`: a right operand without one has no type.
fn with_right(mask: u32, right: Place) -> Place
    ensures { result ≡ rules.with_right mask right }
{
    match right {
        Place::Condition(both) => Place::Condition(both),
        Place::Scaled(_, _, _) => Place::Condition(mask),
    }
}

fn or_code(writer: &mut Writer, under: u32, mask: u32, other: Place) -> Result<Place, OutOfMemory>
    ensures { Writes result writer.new (rules.either_made mask other under writer.old) }
{
    match other {
        Place::Condition(other) => {
            writer.value(under, ExprType::Condition, alike(Lane::Or(mask, other)))
        }
        Place::Scaled(_, _, _) => Ok(Place::Condition(mask)),
    }
}

fn literal_code(
    writer: &mut Writer,
    under: u32,
    mantissa: u64,
    scale: u32,
) -> Result<Place, OutOfMemory>
    ensures { Writes result writer.new (rules.literal_made mantissa scale under writer.old) }
{
    if mantissa < 1 << 63 {
        writer.value(
            under,
            ExprType::Scaled(Kind::Num, scale),
            alike(Lane::Const(mantissa as i64)),
        )
    } else {
        writer.nothing(under)
    }
}

fn part_code(writer: &mut Writer, under: u32, axis: Axis, a: Place) -> Result<Place, OutOfMemory>
    ensures { Writes result writer.new (rules.part_made axis a under writer.old) }
{
    match a {
        Place::Scaled(Kind::Vec3, scale, at) => {
            let at = same_registers(along(axis, at));
            Ok(Place::Scaled(Kind::Num, scale, at))
        }
        _ => writer.nothing(under),
    }
}

fn one_code(
    writer: &mut Writer,
    under: u32,
    place: u32,
    op: Op1,
    a: Place,
) -> Result<Place, OutOfMemory>
    ensures { Writes result writer.new (rules.one_made place op a under writer.old) }
{
    match (op, a) {
        (_, Place::Scaled(kind, scale, at)) => {
            let type_ = one_type(place, op, ExprType::Scaled(kind, scale));
            writer.typed(under, type_, one_acts(op, at))
        }
        (Op1::Not, Place::Condition(mask)) => {
            writer.value(under, ExprType::Condition, alike(Lane::AndNot(under, mask)))
        }
        _ => writer.nothing(under),
    }
}

fn two_code(
    writer: &mut Writer,
    under: u32,
    place: u32,
    op: Op2,
    a: Place,
    b: Place,
) -> Result<Place, OutOfMemory>
    ensures { Writes result writer.new (rules.two_made place op a b under writer.old) }
{
    match (a, b) {
        (Place::Scaled(k, s, a), Place::Scaled(l, t, b)) => {
            let type_ = two_type(place, op, ExprType::Scaled(k, s), ExprType::Scaled(l, t));
            writer.typed(under, type_, two_acts(op, k, a, l, b))
        }
        _ => writer.nothing(under),
    }
}

fn three_code(
    writer: &mut Writer,
    under: u32,
    place: u32,
    op: Op3,
    a: Place,
    b: Place,
    c: Place,
) -> Result<Place, OutOfMemory>
    ensures { Writes result writer.new (rules.three_made place op a b c under writer.old) }
{
    match (a, b, c) {
        (Place::Scaled(k, s, a), Place::Scaled(l, t, b), Place::Scaled(m, u, c)) => {
            let type_ = three_type(
                place,
                op,
                ExprType::Scaled(k, s),
                ExprType::Scaled(l, t),
                ExprType::Scaled(m, u),
            );
            writer.typed(under, type_, three_acts(op, a, b, c))
        }
        _ => writer.nothing(under),
    }
}

fn to_code(
    writer: &mut Writer,
    under: u32,
    place: u32,
    to: u32,
    a: Place,
) -> Result<Place, OutOfMemory>
    ensures { Writes result writer.new (rules.to_made place to a under writer.old) }
{
    match a {
        Place::Scaled(kind, scale, at) => {
            let type_ = to_type(place, to, ExprType::Scaled(kind, scale));
            writer.typed(under, type_, to_acts(to, scale, at))
        }
        Place::Condition(_) => writer.nothing(under),
    }
}
