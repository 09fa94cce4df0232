ghost use Rattle.std.specs.Prelude.{◌≡◌, ◌++◌, length};
ghost use Rattle.kern_tree.specs.declared.expr.Form.TheOpen as layers;
ghost use Rattle.kern_meaning.specs.Expressions as meanings;
ghost use Rattle.kern_meaning.specs.Links.{with_count, links_of, value_by};
ghost use Rattle.kern_meaning.specs.Names.{known_at_start, name_value as valued};
ghost use Rattle.kern_meaning.specs.Operators as rules;
ghost use Rattle.kern_meaning.specs.Variables.{value_of_variable};
ghost use Rattle.kern_meaning.specs.Walks.{WritesValue, known_by};

use crate::link::{Link, split};
use crate::operators::{
    literal_value, one_value, part_value, three_value, to_value, truth, two_value,
};
use crate::statement::Walk;
use crate::variable::{Variable, of_kind};
use crate::{Stop, Value};
use kern_tree::{Expr, Form, Kind, Op1, Op2, Op3};
use kern_types::ExprType;
use pf_geom::Axis;

// A value is as long as three numbers, so it is written where it is wanted. Each form has a function of its own, which
// isn't inlined: a call pays for the room of all the values that it may need, and most nodes need one or two.

/// Writes the value of an expression, where the names that are assigned have these values, by number.
#[cycle(expressions)]
fn value_of(
    expr: &Expr,
    links: &[Link],
    walk: &Walk,
    values: &[Option<Value>],
    value: &mut Value,
) -> Result<(), Stop>
    requires links { links.now ≡ links_of walk.now.names.now walk.now.decls.now expr.now }
    requires same { length values.now ≡ length walk.now.names.now }
    ensures { WritesValue result (meanings.value_of (known_by
        (known_at_start walk.now.decls.now walk.now.i.now walk.now.j.now) walk.now.names.now values.now)
        expr.now)
        value.new }
{
    match &expr.form {
        Form::Number(mantissa, scale) => store(literal_value(*mantissa, *scale), value),
        Form::Name(_) => read(walk, values, links, value),
        Form::Part(a, axis) => part_of(*axis, a.get(), links, walk, values, value),
        Form::One(op, a) => one_of(*op, a.get(), links, walk, values, value),
        Form::Two(op, a, b) => two_of(*op, a.get(), b.get(), links, walk, values, value),
        Form::Three(op, a, b, c) => {
            three_of(*op, a.get(), b.get(), c.get(), links, walk, values, value)
        }
        Form::To(scale, a) => to_of(*scale, a.get(), links, walk, values, value),
    }
}

#[inline(never)]
#[cycle(expressions)]
fn part_of(
    axis: Axis,
    a: &Expr,
    links: &[Link],
    walk: &Walk,
    values: &[Option<Value>],
    value: &mut Value,
) -> Result<(), Stop>
    requires links { links.now ≡ links_of walk.now.names.now walk.now.decls.now a.now }
    requires same { length values.now ≡ length walk.now.names.now }
    ensures { WritesValue result (meanings.form_meaning (known_by
        (known_at_start walk.now.decls.now walk.now.i.now walk.now.j.now) walk.now.names.now values.now)
        (layers.Part (meanings.value_of (known_by
        (known_at_start walk.now.decls.now walk.now.i.now walk.now.j.now) walk.now.names.now values.now)
        a.now) axis)) value.new }
{
    value_of(a, links, walk, values, value)?;
    store(part_value(axis, *value), value)
}

#[inline(never)]
#[cycle(expressions)]
fn one_of(
    op: Op1,
    a: &Expr,
    links: &[Link],
    walk: &Walk,
    values: &[Option<Value>],
    value: &mut Value,
) -> Result<(), Stop>
    requires links { links.now ≡ links_of walk.now.names.now walk.now.decls.now a.now }
    requires same { length values.now ≡ length walk.now.names.now }
    ensures { WritesValue result (meanings.form_meaning (known_by
        (known_at_start walk.now.decls.now walk.now.i.now walk.now.j.now) walk.now.names.now values.now)
        (layers.One op (meanings.value_of (known_by
        (known_at_start walk.now.decls.now walk.now.i.now walk.now.j.now) walk.now.names.now values.now)
        a.now))) value.new }
{
    value_of(a, links, walk, values, value)?;
    store(one_value(op, *value), value)
}

#[inline(never)]
#[cycle(expressions)]
fn to_of(
    scale: u32,
    a: &Expr,
    links: &[Link],
    walk: &Walk,
    values: &[Option<Value>],
    value: &mut Value,
) -> Result<(), Stop>
    requires links { links.now ≡ links_of walk.now.names.now walk.now.decls.now a.now }
    requires same { length values.now ≡ length walk.now.names.now }
    ensures { WritesValue result (meanings.form_meaning (known_by
        (known_at_start walk.now.decls.now walk.now.i.now walk.now.j.now) walk.now.names.now values.now)
        (layers.To scale (meanings.value_of (known_by
        (known_at_start walk.now.decls.now walk.now.i.now walk.now.j.now) walk.now.names.now values.now)
        a.now))) value.new }
{
    value_of(a, links, walk, values, value)?;
    store(to_value(scale, *value), value)
}

#[inline(never)]
#[cycle(expressions)]
fn two_of(
    op: Op2,
    a: &Expr,
    b: &Expr,
    links: &[Link],
    walk: &Walk,
    values: &[Option<Value>],
    value: &mut Value,
) -> Result<(), Stop>
    requires links { links.now ≡ with_count (links_of walk.now.names.now walk.now.decls.now a.now)
        ++ links_of walk.now.names.now walk.now.decls.now b.now }
    requires same { length values.now ≡ length walk.now.names.now }
    ensures { WritesValue result (meanings.form_meaning (known_by
        (known_at_start walk.now.decls.now walk.now.i.now walk.now.j.now) walk.now.names.now values.now)
        (layers.Two op (meanings.value_of (known_by
        (known_at_start walk.now.decls.now walk.now.i.now walk.now.j.now) walk.now.names.now values.now)
        a.now)
        (meanings.value_of (known_by
        (known_at_start walk.now.decls.now walk.now.i.now walk.now.j.now) walk.now.names.now values.now)
        b.now))) value.new }
{
    let parts = split(links);
    value_of(a, parts.0, walk, values, value)?;
    match op {
        Op2::And if !truth(*value)? => store(Ok(Value::Condition(false)), value),
        Op2::Or if truth(*value)? => store(Ok(Value::Condition(true)), value),
        Op2::And | Op2::Or => {
            value_of(b, parts.1, walk, values, value)?;
            let holds = truth(*value)?;
            store(Ok(Value::Condition(holds)), value)
        }
        _ => {
            let mut second = Value::Condition(false);
            value_of(b, parts.1, walk, values, &mut second)?;
            store(two_value(op, *value, second), value)
        }
    }
}

#[inline(never)]
#[cycle(expressions)]
fn three_of(
    op: Op3,
    a: &Expr,
    b: &Expr,
    c: &Expr,
    links: &[Link],
    walk: &Walk,
    values: &[Option<Value>],
    value: &mut Value,
) -> Result<(), Stop>
    requires links { links.now ≡ with_count (links_of walk.now.names.now walk.now.decls.now a.now)
        ++ (with_count (links_of walk.now.names.now walk.now.decls.now b.now)
        ++ links_of walk.now.names.now walk.now.decls.now c.now) }
    requires same { length values.now ≡ length walk.now.names.now }
    ensures { WritesValue result (meanings.form_meaning (known_by
        (known_at_start walk.now.decls.now walk.now.i.now walk.now.j.now) walk.now.names.now values.now)
        (layers.Three op (meanings.value_of (known_by
        (known_at_start walk.now.decls.now walk.now.i.now walk.now.j.now) walk.now.names.now values.now)
        a.now)
        (meanings.value_of (known_by
        (known_at_start walk.now.decls.now walk.now.i.now walk.now.j.now) walk.now.names.now values.now)
        b.now)
        (meanings.value_of (known_by
        (known_at_start walk.now.decls.now walk.now.i.now walk.now.j.now) walk.now.names.now values.now)
        c.now))) value.new }
{
    let parts = split(links);
    value_of(a, parts.0, walk, values, value)?;
    let later = split(parts.1);
    let mut second = Value::Condition(false);
    value_of(b, later.0, walk, values, &mut second)?;
    let mut third = Value::Condition(false);
    value_of(c, later.1, walk, values, &mut third)?;
    store(three_value(op, *value, second, third), value)
}

// Writes the value of the name that stands first.
#[inline(never)]
fn read(
    walk: &Walk,
    values: &[Option<Value>],
    links: &[Link],
    value: &mut Value,
) -> Result<(), Stop>
    ensures { WritesValue result (valued (value_by walk.now.i.now walk.now.j.now values.now links.now)) value.new }
{
    match links.first() {
        Some(Link::Assigned(number)) => match values.get(*number) {
            Some(Some(known)) => {
                *value = *known;
                Ok(())
            }
            _ => Err(Stop::NoResult),
        },
        Some(Link::Declared(variable)) => declared(walk, variable, value),
        _ => Err(Stop::NoResult),
    }
}

// Writes the value of what is declared.
fn declared(walk: &Walk, variable: &Variable, value: &mut Value) -> Result<(), Stop>
    ensures { WritesValue result (valued (value_of_variable walk.now.i.now walk.now.j.now variable.now)) value.new }
{
    match variable {
        Variable::Particle(field, kind, scale) => {
            *value = of_kind(*kind, *scale, field.of_body(walk.i));
            Ok(())
        }
        Variable::Item(field, kind, scale) => {
            *value = of_kind(*kind, *scale, field.of_item(walk.j));
            Ok(())
        }
        Variable::Constant(mantissa, scale) => {
            *value = Value::Num(*mantissa, *scale);
            Ok(())
        }
        Variable::Nothing => Err(Stop::NoResult),
    }
}

fn store(answer: Result<Value, Stop>, value: &mut Value) -> Result<(), Stop>
    ensures { WritesValue result answer value.new }
{
    match answer {
        Ok(written) => {
            *value = written;
            Ok(())
        }
        Err(stop) => Err(stop),
    }
}

/// Writes the value of an expression that is a num or a vec.
pub(crate) fn number_value_of(
    expr: &Expr,
    links: &[Link],
    walk: &Walk,
    values: &[Option<Value>],
    value: &mut Value,
) -> Result<(), Stop>
    requires links { links.now ≡ links_of walk.now.names.now walk.now.decls.now expr.now }
    requires same { length values.now ≡ length walk.now.names.now }
    ensures { WritesValue result (meanings.number_value_of (known_by
        (known_at_start walk.now.decls.now walk.now.i.now walk.now.j.now) walk.now.names.now values.now)
        expr.now)
        value.new }
{
    value_of(expr, links, walk, values, value)?;
    match value {
        Value::Num(_, _) | Value::Vec3(_, _) => Ok(()),
        Value::Condition(_) => Err(Stop::NoResult),
    }
}

/// Whether a condition holds.
pub(crate) fn truth_of(
    expr: &Expr,
    links: &[Link],
    walk: &Walk,
    values: &[Option<Value>],
) -> Result<bool, Stop>
    requires links { links.now ≡ links_of walk.now.names.now walk.now.decls.now expr.now }
    requires same { length values.now ≡ length walk.now.names.now }
    ensures { result ≡ meanings.truth_of (known_by
        (known_at_start walk.now.decls.now walk.now.i.now walk.now.j.now) walk.now.names.now values.now)
        expr.now }
{
    let mut value = Value::Condition(false);
    value_of(expr, links, walk, values, &mut value)?;
    truth(value)
}

/// Writes the value of an expression, which a FORCE variable of this type takes.
pub(crate) fn contribution_of(
    expr: &Expr,
    force: Option<ExprType>,
    links: &[Link],
    walk: &Walk,
    values: &[Option<Value>],
    value: &mut Value,
) -> Result<(), Stop>
    requires links { links.now ≡ links_of walk.now.names.now walk.now.decls.now expr.now }
    requires same { length values.now ≡ length walk.now.names.now }
    ensures { WritesValue result (meanings.contribution_of (known_by
        (known_at_start walk.now.decls.now walk.now.i.now walk.now.j.now) walk.now.names.now values.now)
        force
        expr.now) value.new }
{
    value_of(expr, links, walk, values, value)?;
    taken_by(force, value)
}

fn taken_by(force: Option<ExprType>, value: &Value) -> Result<(), Stop>
    ensures { WritesValue result (rules.taken_by force value.now) value.now }
{
    match (force, value) {
        (Some(ExprType::Scaled(Kind::Num, scale)), Value::Num(_, own)) if scale == *own => Ok(()),
        (Some(ExprType::Scaled(Kind::Vec3, scale)), Value::Vec3(_, own)) if scale == *own => Ok(()),
        _ => Err(Stop::NoResult),
    }
}
